// Requests and limits read from lines, and the bytes of a request.
#![tactic(auto)]

pub mod errors;
mod parsing;
pub mod reading;
pub mod request_bytes;
mod words;

pub use errors::{Expected, LineError};
pub use reading::{read_limits, read_request};
pub use request_bytes::event_bytes;
