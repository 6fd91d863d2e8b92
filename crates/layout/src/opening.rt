// Why a client isn't opened.
ghost use Rattle.std.specs.Prelude.{◌≡◌};
ghost use Rattle.layout.specs.declared.opening.OpenError.TheVariants.{BadLimits};

use protocol::LimitsError;

// A limit is out of range, or memory has fewer numbers than are needed.
#[derive(Clone, Copy, PartialEq, Eq, Debug)]
pub enum OpenError {
    BadLimits(LimitsError),
    ShortMemory(usize),
}

impl From<LimitsError> for OpenError {
    ghost from_gives = { λ e r. r ≡ BadLimits e };

    fn from(error: LimitsError) -> OpenError {
        OpenError::BadLimits(error)
    }
}
