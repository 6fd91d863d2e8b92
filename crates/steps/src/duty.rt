// A duty that is given.
ghost use Rattle.std.specs.Prelude.{◌≡◌, ℕ, suc, ◌<◌, ◌≤◌, Bool, true, [], ◌∷◌, ◌++◌, length, MatchOption, ◌==◌};
ghost use Rattle.protocol.specs.Client.{duty as given_duty};
ghost use Rattle.protocol.specs.Data.{pick};
ghost use Rattle.wire.specs.Meaning.{duty_of};
ghost use Rattle.stored.specs.Stored.{Stored};
ghost use Rattle.layout.specs.Memory.{Shows, TurnsIf};
ghost use Rattle.store.specs.Store.{duty_found};
ghost use Rattle.keeper.specs.Ready.{Ready};
ghost use Rattle.keeper.specs.Step.{moved};
ghost use Rattle.steps.specs.Queue.{upcoming as first_up};
ghost use Rattle.steps.specs.Served.{Step};

use crate::answers::{refuse, write_deeds};
use crate::hand::is_busy;
use crate::queue::{is_ahead, settle, upcoming};
use events::Deeds;
use layout::{Field, Memory, View};
use protocol::Refusal;
use store::{Listed, Waiting, push_waiting};
use wire::{Duty, Short};

// Takes a duty: it is turned away, or goes to the end of the queue, which is looked at then.
// Stays: each check hands on its value or returns its refusal by `let .. else`, a rule of the project.
pub(crate) fn on_duty(memory: &mut Memory, duty: &Duty, out: &mut [u8]) -> Result<usize, Short>
    ensures { (can : ℕ → Bool) → can 0 ≡ true →
        Step can (given_duty (duty_of duty.now)) memory.old memory.new out.old out.new result }
{
    let Some(next) = duty.slot.checked_add(1) else {
        return refuse(out, Refusal::NotServed);
    };
    let Some(_slot) = not_given(memory.view(), duty.slot) else {
        return refuse(out, Refusal::NotAfter);
    };
    let Some(_place) = room(memory.view()) else {
        return refuse(out, Refusal::NoRoom);
    };
    let begun = begun_by(memory.view(), duty);
    let deeds = Deeds {
        begun: begun.as_slice(),
        ..Deeds::default()
    };
    let n = write_deeds(out, &deeds)?;
    give(memory, duty, next);
    Ok(n)
}

// The slot, if it is after the last duty given.
fn not_given(view: View, slot: u64) -> Option<u64>
    ensures { (t : Stored) → Shows view.entry t → MatchOption result (slot < t.after) (λ _. t.after ≤ slot) }
{
    (view.get(Field::After) <= slot).then_some(slot)
}

// The place behind all that wait, if one more may.
fn room(view: View) -> Option<usize>
    ensures { (t : Stored) → Shows view.entry t → MatchOption result (t.sizes.waiting ≤ length t.queue) (λ _. length t.queue < t.sizes.waiting) }
{
    let place = Waiting::rows(view).len();
    (place < view.layout.waiting).then_some(place)
}

// The duty that is begun when this one is given: none if one is at hand, else the first that isn't ahead.
fn begun_by(view: View, duty: &Duty) -> Option<Duty>
    ensures { (t : Stored) → Shows view.entry t →
        duty_found result ≡ pick (t.at_hand == 0) (first_up (t.queue ++ duty_of duty.now ∷ []) t.ahead) [] }
{
    if is_busy(view) {
        return None;
    }
    if let Some(first) = upcoming(view) {
        return Some(first);
    }
    (!is_ahead(view, duty.slot)).then_some(*duty)
}

// The duty waits behind all others, its slot is listened for, and the queue is looked at.
fn give(memory: &mut Memory, duty: &Duty, next: u64)
    requires { next ≡ suc duty.now.slot }
    ensures { TurnsIf memory.old memory.new (λ t. Ready t × (length t.queue < t.sizes.waiting) × (t.after ≤ duty.now.slot)) (λ t. moved t (given_duty (duty_of duty.now))) }
{
    memory.put(Field::After, next);
    banks::take(memory, duty.slot);
    push_waiting(memory, duty);
    settle(memory);
}
