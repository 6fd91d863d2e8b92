// Data, duties and shares by value, as bytes and as they are printed.
#![tactic(auto)]

pub mod fixed;
pub mod layouts;
pub mod numbers;
pub mod printing;
pub mod read_back;
pub mod roots;
pub mod values;

pub use fixed::{Fixed, Short};
pub use values::{Data, Duty, Entry, Root, Share};
