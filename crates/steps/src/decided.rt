// The deciding for a slot that has come to data.
ghost use Rattle.std.specs.Prelude.{◌≡◌, ℕ, Bool, true};
ghost use Rattle.protocol.specs.Client.{decided as come_to, own_with};
ghost use Rattle.protocol.specs.Data.{first_of};
ghost use Rattle.wire.specs.Meaning.{data_of, share_of};
ghost use Rattle.stored.specs.Stored.{with_own, with_at_hand};
ghost use Rattle.layout.specs.Memory.{TurnsIf};
ghost use Rattle.keeper.specs.Ready.{Ready};
ghost use Rattle.keeper.specs.Step.{remembered, settle as settled};
ghost use Rattle.steps.specs.Served.{Step};

use crate::answers::write_deeds;
use crate::hand::at_hand;
use crate::queue::{settle, upcoming};
use events::Deeds;
use layout::{Field, Memory};
use store::{put_own, remember};
use wire::{Data, Entry, Share, Short};

// Takes what the deciding has come to: if that is for the duty at hand, it is signed, and the queue is looked at; else nothing happens.
pub(crate) fn on_decided(
    memory: &mut Memory,
    slot: u64,
    data: &Data,
    out: &mut [u8],
) -> Result<usize, Short>
    ensures { (can : ℕ → Bool) → can 1 ≡ true →
        Step can (come_to slot (data_of «data».now)) memory.old memory.new out.old out.new result }
{
    let Some(duty) = at_hand(memory.view(), slot) else {
        return write_deeds(out, &Deeds::default());
    };
    // Stays: a cast that is proved to lose nothing, where `try_from` would have an error that can't come.
    let share = Share {
        who: memory.layout.me as u8,
        what: *data,
        seat: duty.seat,
    };
    let begun = upcoming(memory.view());
    let deeds = Deeds {
        sent: &[share],
        begun: begun.as_slice(),
        ..Deeds::default()
    };
    let n = write_deeds(out, &deeds)?;
    sign(memory, &share);
    Ok(n)
}

// An own share is kept and its data goes into the past; no duty is at hand, and the queue is looked at.
fn sign(memory: &mut Memory, share: &Share)
    ensures { TurnsIf memory.old memory.new Ready
        (λ t. settled t.queue (with_own (first_of t.sizes.waiting (own_with (share_of share.now) t.own)) (with_at_hand 0 (remembered (share_of share.now).what t)))) }
{
    remember(memory, Entry::from(&share.what));
    put_own(memory, share);
    // Stays: a number for the flag, since a client's memory holds numbers; `is_busy` reads it.
    memory.put(Field::AtHand, 0);
    settle(memory);
}
