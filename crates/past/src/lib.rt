// The past (Ethereum: a slashing protection history) in a lent slice of numbers: two for each entry, source and target, the largest target first, free ones zero.
// What is said of it holds for any numbers whatever: no order is assumed.
#![tactic(auto)]

mod entry;
mod history;
mod judging;

pub use history::{keep_one_more, pairs};
pub use judging::{is_unsafe, is_valid};
