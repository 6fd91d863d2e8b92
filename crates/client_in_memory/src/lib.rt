// One client of a group: opened on lent memory, it takes events and answers them, and keeps its past.
#![tactic(auto)]

pub mod calls;
pub mod errors;
pub mod session;

pub use calls::{handle, may_decide, needed, open, past};
pub use errors::CallError;
pub use session::Session;
