// What the deciding asks a client.
ghost use Rattle.std.specs.Prelude.{◌≡◌};
ghost use Rattle.wire.specs.Meaning.{data_of};
ghost use Rattle.stored.specs.Stored.{Stored};
ghost use Rattle.layout.specs.Memory.{Shows};
ghost use Rattle.keeper.specs.Step.{allows as lets};

use layout::View;
use numbers::InNumbers;
use store::{Deciding, Listed, is_valid};
use wire::{Data, Duty};

// Whether the deciding for a slot may come to data: it is valid, by the past as it is now, for a duty with that slot that is being decided.
pub fn allows(view: View, slot: u64, data: &Data) -> bool
    ensures { (t : Stored) → Shows view.entry t → result ≡ lets t slot (data_of «data».now) }
{
    Deciding::rows(view)
        .iter()
        .map(|row| Duty::from_numbers(row))
        .any(|duty| duty.slot == slot && is_valid(view, data, &duty))
}
