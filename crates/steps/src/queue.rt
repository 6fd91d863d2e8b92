// The queue as it is looked at.
ghost use Rattle.std.specs.Prelude.{◌≡◌, ◌<◌, [], ◌∷◌, length, drop};
ghost use Rattle.protocol.specs.Client.{has_slot};
ghost use Rattle.wire.specs.Meaning.{data_of, duty_of};
ghost use Rattle.stored.specs.Stored.{Stored, with_queue, with_banks, freed};
ghost use Rattle.std.specs.List.{AllByRecursion};
ghost use Rattle.layout.specs.Memory.{Shows, TurnsIf};
ghost use Rattle.store.specs.Store.{duty_found};
ghost use Rattle.steps.specs.Orderly.{SlotFits, Orderly};
ghost use Rattle.keeper.specs.Step.{learnt, started, settle as settled};
ghost use Rattle.steps.specs.Queue.{upcoming as first_up, skipped};

use crate::hand::is_busy;
use layout::{Field, Memory, View};
use numbers::InNumbers;
use std::cmp::Ordering;
use store::{
    Ahead, Deciding, Listed, Waiting, ahead_for, drop_slots, pop_waiting, push_deciding, remember,
};
use wire::{Data, Duty, Entry};

// The first duty that waits and isn't ahead, if there is one.
pub(crate) fn upcoming(view: View) -> Option<Duty>
    ensures { (t : Stored) → Shows view.entry t → duty_found result ≡ first_up t.queue t.ahead }
{
    Waiting::rows(view)
        .iter()
        .map(|row| Duty::from_numbers(row))
        .find(|duty| !is_ahead(view, duty.slot))
}

// Whether data is ahead for a slot.
pub(crate) fn is_ahead(view: View, slot: u64) -> bool
    ensures { (t : Stored) → Shows view.entry t → result ≡ has_slot slot t.ahead }
{
    ahead_for(view, slot).is_some()
}

// A slot is no longer listened for.
pub(crate) fn release(memory: &mut Memory, slot: u64)
    ensures { TurnsIf memory.old memory.new (λ _. slot < 18446744073709551615) (λ t. with_banks (freed t.sizes.clients slot t.banks) t) }
{
    if slot < u64::MAX {
        banks::free(memory, slot);
    }
}

// The first that waits was shown to be decided: the data goes into the past, and the duty, what was ahead and its shares go.
fn learn(memory: &mut Memory, first: &Duty, shown: &Data)
    ensures { TurnsIf memory.old memory.new (λ t. (first.now.slot < 18446744073709551615) × (0 < length t.queue))
        (λ t. with_queue (drop 1 t.queue) (learnt (data_of shown.now ∷ []) (duty_of first.now) t)) }
{
    remember(memory, Entry::from(shown));
    drop_slots::<Ahead, _>(memory, &[first.slot]);
    release(memory, first.slot);
    pop_waiting(memory);
}

// As long as the queue's first is for a slot that is ahead, it goes. What is ahead is walked by slots, beside the queue.
// Stays: a loop over the queue inside the walk of what is ahead, left by its label, as the project's rules have it.
pub(crate) fn skip_shown(memory: &mut Memory)
    ensures { TurnsIf memory.old memory.new Orderly (λ t. skipped t.queue t) }
{
    let mut left = Waiting::rows(memory.view()).len();
    'walk: for place in 0..memory.layout.waiting {
        while left > 0 {
            let Some(first) = Waiting::at(memory.view(), 0) else {
                break 'walk;
            };
            let Some(shown) = Ahead::at(memory.view(), place) else {
                break 'walk;
            };
            match first.slot.cmp(&shown.slot) {
                Ordering::Less => break 'walk,
                Ordering::Greater => continue 'walk,
                Ordering::Equal => learn(memory, &first, &shown),
            }
            left -= 1;
        }
    }
}

// Begins the first that waits: of what is being decided the last are kept, and what goes is no longer listened for.
fn begin(memory: &mut Memory, first: &Duty)
    ensures { TurnsIf memory.old memory.new (λ t. AllByRecursion SlotFits t.active × (first.now.slot < 18446744073709551615) × (0 < length t.queue))
        (λ t. started (duty_of first.now) (drop 1 t.queue) t) }
{
    let place = memory.layout.waiting - 1;
    if let Some(last) = Deciding::at(memory.view(), place) {
        release(memory, last.slot);
    }
    // Stays: a number for the flag, since a client's memory holds numbers; `is_busy` reads it.
    memory.put(Field::AtHand, 1);
    memory.put(Field::Latest, first.slot.saturating_add(1));
    pop_waiting(memory);
    push_deciding(memory, first);
}

// Looks at the queue: those at its front that are ahead go, and then, with none at hand, the first is begun.
pub(crate) fn settle(memory: &mut Memory)
    ensures { TurnsIf memory.old memory.new Orderly (λ t. settled t.queue t) }
{
    skip_shown(memory);
    if is_busy(memory.view()) {
        return;
    }
    if let Some(first) = Waiting::at(memory.view(), 0) {
        begin(memory, &first);
    }
}
