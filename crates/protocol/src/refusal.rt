// Why an event is turned away.
ghost use Rattle.std.specs.Prelude.{◌≡◌};
ghost use Rattle.protocol.specs.Refusals.{number as number_of};
ghost use Rattle.protocol.specs.Meaning.{refusal_of};

// The refusals, in the order in which they are looked for.
#[derive(Clone, Copy, PartialEq, Eq, Debug)]
pub enum Refusal {
    // Bytes that are no event.
    NoEvent = 1,
    // A client that isn't there, a duty for the last slot of all, too many data in a block, an event that the client can't do.
    NotServed = 2,
    // A duty that isn't after the last one given.
    NotAfter = 3,
    // A duty, when as many wait as may.
    NoRoom = 4,
    // A share for a slot that isn't listened for.
    NotListenedFor = 5,
    // A share of a client that has one there for that slot.
    SecondShare = 6,
    // Two different data for one slot in a block.
    TwoForASlot = 7,
}

// The number by which an answer names it.
impl From<Refusal> for u8 {
    ghost from_gives = { λ r n. n ≡ number_of (refusal_of r) };

    fn from(refusal: Refusal) -> u8 {
        refusal as u8
    }
}
