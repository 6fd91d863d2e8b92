// Lists of entries of one width in a lent slice of numbers: the first number says how many there are, and zeros stand behind them.
// Each call is safe for any numbers whatever: a count that can't be is taken for the most that there is room for.
#![tactic(auto)]

mod changes;
mod list;
mod reads;

pub use changes::{insert, keep, remove, replace};
pub use list::List;
pub use reads::{at, count, find};
