// Why a call fails, with nothing changed.
ghost use Rattle.std.specs.Prelude.{◌≡◌};
ghost use Rattle.client_in_memory.specs.declared.errors.CallError.TheVariants.{ShortAnswer};

use wire::Short;

// The memory is no client's, or the answer has no room in the slice that was lent for it.
#[derive(Clone, Copy, PartialEq, Eq, Debug)]
pub enum CallError {
    NotAClient,
    ShortAnswer,
}

impl From<Short> for CallError {
    ghost from_gives = { λ short error. error ≡ ShortAnswer };

    fn from(_short: Short) -> CallError {
        CallError::ShortAnswer
    }
}
