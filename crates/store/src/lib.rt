// A client's lists in its memory: the queue, what is being decided, what is ahead, own shares, the past.
// Each call lends one region, is safe for any numbers whatever, and says what it does to a memory that holds a client; all else stays as it was.
#![tactic(auto)]

pub mod ahead;
pub mod duties;
pub mod history;
pub mod kinds;
pub mod listed;
pub mod placing;
pub mod slotted;

pub use ahead::ahead_for;
pub use duties::{pop_waiting, push_deciding, push_waiting};
pub use history::{is_valid, remember};
pub use kinds::{Ahead, Deciding, Own, Past, Waiting};
pub use listed::Listed;
pub use placing::{put_ahead, put_own};
pub use slotted::{Slotted, drop_before, drop_slots};
