// Why a line has no reply, and why the program stops.
use lines::LineError;
use protocol::LimitsError;
use std::alloc::AllocError;
use text::AnswerError;
use thiserror::Error;
use wire::Short;

// Why a line has no reply.
#[derive(Debug, Drop, Error)]
pub enum Trouble {
    // The line can't be read.
    #[error(transparent)]
    Line(#[from] LineError),
    // A limit is out of range.
    #[error(transparent)]
    Limits(#[from] LimitsError),
    // The answer's bytes have no room, or are no answer: a fault of this program.
    #[error("the client's answer can't be read: a fault of this program")]
    Answer,
    // There is no memory.
    #[error("there is no memory")]
    Memory(#[from(alloc)] AllocError),
}

impl From<Short> for Trouble {
    fn from(_error: Short) -> Trouble {
        Trouble::Answer
    }
}

impl From<AnswerError> for Trouble {
    fn from(error: AnswerError) -> Trouble {
        match error {
            AnswerError::Cut => Trouble::Answer,
            AnswerError::Memory => Trouble::Memory(AllocError),
        }
    }
}

// Why the program ends with status 1.
#[derive(Debug, Drop, Error)]
pub enum Stopped {
    // The arguments can't be read.
    #[error("the arguments can't be read")]
    Arguments,
    // There is no memory for the arguments.
    #[error("no memory for the arguments")]
    Memory,
    // No file is named.
    #[error("no file: name files of lines, as `run_client FILE ..`")]
    NoFile,
    // A file can't be read.
    #[error("{0}: can't be read: name a file of lines")]
    Unread(String),
    // A line of a file has no reply.
    #[error("{name}: line {number}: {trouble}")]
    Line {
        name: String,
        number: u64,
        trouble: Trouble,
    },
    // An answer can't be printed, of which nothing is said.
    #[error("an answer can't be printed")]
    Unprinted,
}
