// What is wrong with a line.
ghost use Rattle.std.specs.Prelude.{◌≡◌};
ghost use Rattle.lines.specs.declared.errors.Expected.TheVariants.{Number};

use std::alloc::AllocError;
use std::num::{ParseIntError, TryFromIntError};
use thiserror::Error;

// What was expected where a line goes wrong.
#[derive(Clone, Copy, Debug, Error)]
pub enum Expected {
    // One of the words that a line begins with.
    #[error("`duty`, `decided`, `share`, `block`, `resend`, `may`, `past` or `bytes`")]
    Word,
    // Limits.
    #[error("limits: write `clients N me I kept K waiting W`")]
    Limits,
    // A duty.
    #[error("a duty: write `duty SLOT seat SEAT`, and ` committee COMMITTEE` unless that is 0")]
    Duty,
    // A slot with data.
    #[error("a slot and data: write `SLOT: DATA`")]
    Decision,
    // A share.
    #[error("a share: write `share WHO seat SEAT: DATA`")]
    Share,
    // Data.
    #[error("data: write `SLOT BLOCK SOURCE TARGET`, and ` COMMITTEE SOURCE-ROOT TARGET-ROOT` unless all three are 0")]
    Data,
    // No more data than a block's count can say.
    #[error("at most 255 data in a block")]
    Fewer,
    // A number that fits.
    #[error("a number in decimal that fits: at most 18446744073709551615, and at most 65535 or 255 for limits")]
    Number,
    // A client, up to 255.
    #[error("a client: a number up to 255")]
    Client,
    // A root that fits.
    #[error("a root: a number in decimal below 2^256")]
    Root,
    // Pairs of hexadecimal digits.
    #[error("bytes: two digits each, of 0 to 9 and a to f")]
    Bytes,
}

impl From<ParseIntError> for Expected {
    ghost from_gives = { λ _ e. e ≡ Number };

    fn from(_error: ParseIntError) -> Expected {
        Expected::Number
    }
}

impl From<TryFromIntError> for Expected {
    ghost from_gives = { λ _ e. e ≡ Number };

    fn from(_error: TryFromIntError) -> Expected {
        Expected::Number
    }
}

// Why a line is not taken, or a request has no bytes.
#[derive(Debug, Drop, Error)]
pub enum LineError {
    // Something else was expected.
    #[error("expected {0}")]
    Expected(#[from] Expected),
    // The line says something in other words than these, which alone are right.
    #[error("expected `{0}`: single spaces, no leading zeros, and nothing that is left out when it is 0")]
    Spelling(String),
    // There is no memory.
    #[error("there is no memory for the line")]
    Memory(#[from(alloc)] AllocError),
}
