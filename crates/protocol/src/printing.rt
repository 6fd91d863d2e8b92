// Limits, and what is wrong with them, as they are printed.
ghost use Rattle.std.specs.Prelude.{false, Some};
ghost use Rattle.protocol.specs.Meaning.{limits_of};
ghost use Rattle.protocol.specs.Text.{limits_text, limits_error_text};

use crate::sizes::{Limits, LimitsError};
use std::error::Error;
use std::fmt;

// The first line of the programs. It says nothing of the events that the client can do.
impl fmt::Display for Limits {
    ghost output = { λ l. Some (limits_text (limits_of (λ _. false) l)) };

    #[tactic(auto, unfolding(crate::specs::Text::limits_text))]
    fn fmt<W: fmt::Write>(&self, f: &mut fmt::Formatter<W>) -> fmt::Result {
        let Limits {
            clients,
            me,
            kept,
            waiting,
        } = *self;
        write!(f, "clients {clients} me {me} kept {kept} waiting {waiting}")
    }
}

// What is wanted of a limit that is out of range.
impl fmt::Display for LimitsError {
    ghost output = { λ e. Some (limits_error_text e) };

    fn fmt<W: fmt::Write>(&self, f: &mut fmt::Formatter<W>) -> fmt::Result {
        f.write_str(match self {
            LimitsError::Clients => "expected 1 to 64 clients",
            LimitsError::Me => "expected `me` below `clients`",
            LimitsError::Kept => "expected 1 to 4096 kept",
            LimitsError::Waiting => "expected 1 to 64 waiting",
        })
    }
}

impl Error for LimitsError {}
