// The duty at hand.
ghost use Rattle.std.specs.Prelude.{◌≡◌, ◌==◌, not};
ghost use Rattle.stored.specs.Stored.{Stored};
ghost use Rattle.layout.specs.Memory.{Shows};
ghost use Rattle.store.specs.Store.{duty_found};
ghost use Rattle.keeper.specs.Ready.{Ready};
ghost use Rattle.keeper.specs.Step.{hand};
ghost use Rattle.steps.specs.Queue.{for_slot};

use layout::{Field, View};
use store::{Deciding, Listed};
use wire::Duty;

// Whether a duty is at hand.
pub(crate) fn is_busy(view: View) -> bool
    ensures { (t : Stored) → Shows view.entry t → result ≡ not (t.at_hand == 0) }
{
    view.get(Field::AtHand) != 0
}

// The duty at hand, if it is for this slot.
pub(crate) fn at_hand(view: View, slot: u64) -> Option<Duty>
    ensures { (t : Stored) → Shows view.entry t → Ready t → duty_found result ≡ for_slot slot (hand t) }
{
    if !is_busy(view) {
        return None;
    }
    Deciding::at(view, 0).filter(|duty| duty.slot == slot)
}
