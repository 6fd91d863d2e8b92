// What a client does with each event, over its memory.
#![tactic(auto)]

mod answers;
mod asking;
mod decided;
mod duty;
mod hand;
mod queue;
mod share;
mod taking;

pub use asking::allows;
pub use taking::serve;
