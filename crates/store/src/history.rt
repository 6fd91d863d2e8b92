// The past in a client's memory.
ghost use Rattle.std.specs.Prelude.{◌≡◌, ◌+◌, ◌*◌, ◌≤◌, List, map, length};
ghost use Rattle.protocol.specs.Data.{Past as SomePast, keep, valid};
ghost use Rattle.wire.specs.Meaning.{data_of, duty_of, entry_of};
ghost use Rattle.past.specs.Past.{row_of};
ghost use Rattle.stored.specs.Stored.{Stored, with_past};
ghost use Rattle.layout.specs.Memory.{Shows, Turns};
ghost use Rattle.lists.specs.Lists.{Region as Holds, counted};

use crate::kinds::Past;
use crate::listed::{Listed, part};
use layout::{Memory, View};
use wire::{Data, Duty, Entry};

// One entry of the past more, of which the largest targets stay, each once.
pub fn remember(memory: &mut Memory, entry: Entry)
    ensures { Turns memory.old memory.new (λ t. with_past (keep t.sizes.kept (entry_of entry) t.past) t) }
{
    let (span, most) = part::<Past, _>(memory.layout);
    keep_one(&mut memory.numbers[span], most, entry);
}

// Whether data is valid for a duty, by the past as it is now.
pub fn is_valid(view: View, data: &Data, duty: &Duty) -> bool
    ensures { (t : Stored) → Shows view.entry t → result ≡ valid t.past (data_of «data».now) (duty_of duty.now) }
{
    past::is_valid(Past::rows(view), data, duty)
}

// One entry more in the region of the past.
// Stays: the region and its room as parameters, as for the other lists; and the cast, since std has no `From<usize>` for u64.
fn keep_one(region: &mut [u64], most: usize, entry: Entry)
    requires { (1 + 2 * most ≤ length region.old) × (most ≤ 4096) }
    ensures { (ps : List SomePast) → Holds 2 most (map row_of ps) region.old → region.new ≡ counted 2 most (map row_of (keep most (entry_of entry) ps)) }
{
    let entries = lists::count(region, most);
    region[0] = past::keep_one_more(&mut region[1..], entries, most, entry) as u64;
}
