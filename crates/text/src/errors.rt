// Why an answer has no text.
ghost use Rattle.std.specs.Prelude.{◌≡◌};
ghost use Rattle.text.specs.declared.errors.AnswerError.TheVariants.{Memory};

use std::alloc::{AllocError, AllocFailed};

// What an answer that has no text lacks.
#[derive(Clone, Copy, PartialEq, Eq, Debug)]
pub enum AnswerError {
    // The bytes of a row end before its entries do.
    Cut,
    // There is no memory.
    Memory,
}

impl From<AllocError> for AnswerError {
    ghost from_gives = { λ _ e. e ≡ Memory };

    fn from(_error: AllocError) -> AnswerError {
        AnswerError::Memory
    }
}

impl<T: Drop> From<AllocFailed<T>> for AnswerError {
    ghost from_gives = { λ _ e. e ≡ Memory };

    fn from(_refused: AllocFailed<T>) -> AnswerError {
        AnswerError::Memory
    }
}
