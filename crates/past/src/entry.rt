// An entry of the past as the two numbers that are kept of it, and beside another.
ghost use Rattle.std.specs.Prelude.{◌≡◌, ◌||◌};
ghost use Rattle.protocol.specs.Data.{clash};
ghost use Rattle.wire.specs.Meaning.{entry_of as meant};
ghost use Rattle.past.specs.Past.{entry_of};

use wire::Entry;

// The entry that two numbers are.
// Stays: read here too, since the crate that reads rows of a client's memory stands on this one.
#[tactic(auto, unfolding(wire::specs::Meaning::entry_of))]
pub(crate) fn read(row: &[u64; 2]) -> Entry
    ensures { meant result ≡ entry_of row.now }
{
    let [source, target] = *row;
    Entry { source, target }
}

// Whether two entries have one target, or one lies around the other.
#[tactic(auto, unfolding(wire::specs::Meaning::entry_of))]
pub(crate) fn clashes(kept: Entry, new: Entry) -> bool
    ensures { result ≡ (clash (meant kept) (meant new) || clash (meant new) (meant kept)) }
{
    let around = kept.source < new.source && new.target < kept.target;
    let within = new.source < kept.source && kept.target < new.target;
    kept.target == new.target || around || within
}
