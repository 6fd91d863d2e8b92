// Whether data may be signed, for all that the past says.
ghost use Rattle.std.specs.Prelude.{◌≡◌, map};
ghost use Rattle.protocol.specs.Data.{Data as SomeData, unsafe, valid};
ghost use Rattle.wire.specs.Meaning.{data_of, duty_of};
ghost use Rattle.past.specs.Past.{entry_of};

use crate::entry::{clashes, read};
use wire::{Data, Duty, Entry};

// Whether data with this source and target could be punished with what is kept: at or below the least target, below the least source, or clashing with an entry.
pub fn is_unsafe(kept: &[[u64; 2]], entry: Entry) -> bool
    ensures { (d : SomeData) → d.source ≡ entry.source → d.target ≡ entry.target → result ≡ unsafe (map entry_of kept.now) d }
{
    let Some((first, others)) = kept.split_first() else {
        return false;
    };
    let mut least = read(first);
    let mut clashing = clashes(least, entry);
    for row in others {
        let other = read(row);
        least.source = least.source.min(other.source);
        least.target = least.target.min(other.target);
        clashing |= clashes(other, entry);
    }
    (entry.target <= least.target) | (entry.source < least.source) | clashing
}

// Whether data is valid for a duty: its slot and committee, not unsafe for the past, and its source before its target.
#[tactic(auto, using(std::proofs::lemmas::Bool::Decides::nat_tests), unfolding(wire::specs::Meaning::data_of, wire::specs::Meaning::duty_of, wire::specs::Meaning::entry_of))]
pub fn is_valid(kept: &[[u64; 2]], data: &Data, duty: &Duty) -> bool
    ensures { result ≡ valid (map entry_of kept.now) (data_of «data».now) (duty_of duty.now) }
{
    data.slot == duty.slot
        && data.committee == duty.committee
        && data.source < data.target
        && !is_unsafe(kept, Entry::from(data))
}
