// Events and answers, and as bytes.
#![tactic(auto)]

pub mod answer;
pub mod answer_reading;
pub mod answer_writing;
pub mod event;
pub mod event_reading;
pub mod event_writing;
pub mod kind;
pub mod laws;
pub mod not_written;
pub mod row;
mod row_writing;

pub use answer::{Answer, Deeds, Rows};
pub use answer_reading::read_answer;
pub use answer_writing::{write_done, write_refused};
pub use event::{Event, Garbled};
pub use event_reading::read_event;
pub use event_writing::{write_block, write_event};
pub use kind::{EventKind, NoKind};
pub use not_written::NotWritten;
pub use row::Row;
