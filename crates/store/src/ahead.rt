// What is ahead for a slot.
ghost use Rattle.std.specs.Prelude.{◌≡◌};
ghost use Rattle.protocol.specs.Client.{ahead_of};
ghost use Rattle.stored.specs.Stored.{Stored};
ghost use Rattle.layout.specs.Memory.{Shows};
ghost use Rattle.store.specs.Store.{data_found};

use crate::kinds::Ahead;
use crate::listed::Listed;
use crate::slotted::Slotted;
use layout::View;
use numbers::InNumbers;
use wire::Data;

// What is ahead for a slot, if anything is.
pub fn ahead_for(view: View, slot: u64) -> Option<Data>
    ensures { (t : Stored) → Shows view.entry t → data_found result ≡ ahead_of slot t.ahead }
{
    Ahead::rows(view)
        .iter()
        .find(|row| row[Ahead::SLOT] == slot)
        .map(|row| Data::from_numbers(row))
}
