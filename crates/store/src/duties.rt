// The duties that wait, and those that are being decided, as they change.
ghost use Rattle.std.specs.Prelude.{◌≡◌, ◌<◌, [], ◌∷◌, ◌++◌, length, drop};
ghost use Rattle.protocol.specs.Data.{first_of};
ghost use Rattle.wire.specs.Meaning.{duty_of};
ghost use Rattle.stored.specs.Stored.{with_queue, with_active};
ghost use Rattle.layout.specs.Memory.{Turns, TurnsIf};

use crate::kinds::{Deciding, Waiting};
use crate::listed::{Listed, insert, remove};
use layout::Memory;
use wire::Duty;

// One duty more waits, behind all others.
pub fn push_waiting(memory: &mut Memory, duty: &Duty)
    ensures { TurnsIf memory.old memory.new (λ t. length t.queue < t.sizes.waiting) (λ t. with_queue (t.queue ++ duty_of duty.now ∷ []) t) }
{
    let behind = Waiting::rows(memory.view()).len();
    insert::<Waiting, _>(memory, behind, duty);
}

// The first that waits goes.
pub fn pop_waiting(memory: &mut Memory)
    ensures { TurnsIf memory.old memory.new (λ t. 0 < length t.queue) (λ t. with_queue (drop 1 t.queue) t) }
{
    remove::<Waiting, _>(memory, 0);
}

// One duty more is being decided, of which the last begun are kept, as many as may wait.
pub fn push_deciding(memory: &mut Memory, duty: &Duty)
    ensures { Turns memory.old memory.new (λ t. with_active (first_of t.sizes.waiting (duty_of duty.now ∷ t.active)) t) }
{
    insert::<Deciding, _>(memory, 0, duty);
}
