// A share that came.
ghost use Rattle.std.specs.Prelude.{◌≡◌, ℕ, suc, ◌*◌, ◌<◌, ◌≤◌, Bool, true, false, [], ◌∷◌, length, IfSome, MatchOption, nat_le, slice_index_or};
ghost use Rattle.protocol.specs.Data.{pick, quorum};
ghost use Rattle.protocol.specs.Client.{share as share_came};
ghost use Rattle.wire.specs.Bytes.{share_from};
ghost use Rattle.wire.specs.Meaning.{data_of};
ghost use Rattle.stored.specs.Stored.{Stored, empty, place_of, bank_at, is_empty, alike};
ghost use Rattle.layout.specs.Memory.{Shows};
ghost use Rattle.store.specs.Store.{data_found};
ghost use Rattle.keeper.specs.Ready.{Ready};
ghost use Rattle.steps.specs.Served.{Step};

use crate::answers::{refuse, write_deeds};
use banks::{Bank, bank_with};
use events::Deeds;
use layout::{Layout, Memory, View};
use protocol::{GroupSize, Refusal};
use wire::{Data, Fixed, Share, Short};

// Which client signed, if it is one of the group.
fn signer(layout: &Layout, share: &Share) -> Option<usize>
    ensures { MatchOption result (layout.now.clients ≤ share.now.who) (λ i. (i ≡ share.now.who) × (i < layout.now.clients)) }
{
    let who = usize::from(share.who);
    (who < layout.clients).then_some(who)
}

// The bank of a slot, if the slot is listened for.
fn listened(view: View<'_>, slot: u64) -> Option<Bank<'_>>
    ensures of { IfSome result (λ b. b.memory ≡ view.entry) }
    ensures first { (t : Stored) → Shows view.entry t → Ready t →
        MatchOption result (place_of (suc slot) t.banks ≡ length t.banks) (λ b. b.place ≡ place_of (suc slot) t.banks) }
{
    bank_with(view, slot.checked_add(1)?)
}

// The cell of a client in a bank, if no share of it came there.
fn free_cell(bank: Bank, who: usize) -> Option<usize>
    requires { who < bank.memory.layout.clients }
    ensures same { IfSome result (λ i. i ≡ who) }
    ensures free { (t : Stored) → Shows bank.entry.memory t →
        MatchOption result (is_empty (slice_index_or (bank_at t.banks bank.entry.place).cells who empty) ≡ false) (λ _. is_empty (slice_index_or (bank_at t.banks bank.entry.place).cells who empty) ≡ true) }
{
    bank.is_empty(who).then_some(who)
}

// The data of a share, if it is the one with which a quorum says that data for that seat.
fn at_quorum(bank: Bank, share: &Share) -> Option<Data>
    ensures { (t : Stored) → Shows bank.entry.memory t →
        data_found result ≡ pick (nat_le (quorum t.sizes.clients) (suc (alike share.now.seat (data_of share.now.what) (bank_at t.banks bank.entry.place).cells))) (data_of share.now.what ∷ []) [] }
{
    // Stays: a cast that is proved to lose nothing, where `try_from` would have an error that can't come.
    let group = GroupSize {
        clients: bank.memory.layout.clients as u16,
    };
    let sharers = bank.count_alike(share.seat, &share.what) + 1;
    (sharers >= usize::from(group.quorum())).then_some(share.what)
}

// Takes a share out of an event's bytes: turned away, or put into its cell, and the data handed in where a quorum says it for the seat.
// Stays: each check hands on its value or returns its refusal by `let .. else`, a rule of the project; and the bytes beside the memory, since a share is read from one lent slice and the state written in another.
pub(crate) fn on_share(memory: &mut Memory, bytes: &[u8], out: &mut [u8]) -> Result<usize, Short>
    requires { 137 ≤ length bytes.now }
    ensures { (can : ℕ → Bool) → can 2 ≡ true →
        Step can (share_came (share_from bytes.now)) memory.old memory.new out.old out.new result }
{
    let Some(share) = Share::read(bytes) else {
        return refuse(out, Refusal::NoEvent);
    };
    let Some(who) = signer(&memory.layout, &share) else {
        return refuse(out, Refusal::NotServed);
    };
    let Some(bank) = listened(memory.view(), share.what.slot) else {
        return refuse(out, Refusal::NotListenedFor);
    };
    let Some(cell) = free_cell(bank, who) else {
        return refuse(out, Refusal::SecondShare);
    };
    let handed_in = at_quorum(bank, &share);
    let place = bank.place;
    let deeds = Deeds {
        handed_in: handed_in.as_slice(),
        ..Deeds::default()
    };
    let n = write_deeds(out, &deeds)?;
    banks::put(memory, place, cell, share.seat, &share.what);
    Ok(n)
}
