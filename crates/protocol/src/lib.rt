// What a group of clients is, what one of them is opened with, and why it turns events away. The definitions and the promises of the whole
// stand in specs/.
#![tactic(auto)]

pub mod printing;
pub mod refusal;
pub mod sizes;
pub mod table;

pub use refusal::Refusal;
pub use sizes::{GroupSize, Limits, LimitsError};
pub use table::table_followed_holds;
