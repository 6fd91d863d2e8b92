// A client's memory: a header, and regions one after another. Where they lie follows from the sizes in the header.
#![tactic(auto)]

pub mod fields;
pub mod header;
pub mod layout;
pub mod lending;
pub mod memory;
pub mod opening;
pub mod region;
pub mod spans;

pub use fields::Field;
pub use header::{get, open, put};
pub use layout::Layout;
pub use memory::{Memory, View};
pub use opening::OpenError;
pub use region::Region;
pub use spans::needed;
