// The shares that came, in banks that lie in two regions of a client's memory: the marks, one number for each bank, and the cells, eighteen numbers for each client in each bank.
// The contracts say what holds where memory holds a client; nothing goes out of bounds for any numbers whatever.
// Stays: marks and cells apart, since memory is numbers, and a bank is found by its mark without a walk over all cells.
#![tactic(auto)]

mod memory;
mod searches;

pub use memory::{Bank, bank_with, clear, free, put, take};
