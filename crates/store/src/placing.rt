// What is put into a list by its slot.
ghost use Rattle.std.specs.Prelude.{◌≡◌, ℕ, ◌+◌, ◌*◌, ◌<◌, ◌≤◌, Bool, List as Sequence, length, take, drop, nat_eq, slice_index};
ghost use Rattle.protocol.specs.Client.{by_slot, own_with};
ghost use Rattle.protocol.specs.Data.{first_of};
ghost use Rattle.wire.specs.Meaning.{data_of, share_of};
ghost use Rattle.stored.specs.Stored.{with_ahead, with_own};
ghost use Rattle.layout.specs.Memory.{Turns};
ghost use Rattle.lists.specs.Lists.{Region as Holds, counted, first_passing};
ghost use Rattle.store.specs.Placing.{put_by as placed, first_is};
ghost use Rattle.store.specs.Relisted.{Relists};
ghost use Rattle.store.specs.Rooms.{room_of};

use crate::kinds::{Ahead, Own};
use crate::listed::{Listed, part};
use crate::slotted::Slotted;
use layout::Memory;
use lists::List;
use numbers::InNumbers;
use wire::{Data, Share};

// Data is ahead for its slot, in the place of what was; the first ones by slots stay, as many as may wait.
pub fn put_ahead(memory: &mut Memory, data: &Data)
    ensures { Turns memory.old memory.new (λ t. with_ahead (first_of t.sizes.waiting (by_slot (data_of «data».now) t.ahead)) t) }
{
    let slot = data.slot;
    put::<Ahead, _, _>(memory, data, |other| slot <= other);
}

// An own share is kept, in the place of an old one for the slot; the last ones by slots stay, as many as may wait.
pub fn put_own(memory: &mut Memory, share: &Share)
    ensures { Turns memory.old memory.new (λ t. with_own (first_of t.sizes.waiting (own_with (share_of share.now) t.own)) t) }
{
    let slot = share.what.slot;
    put::<Own, _, _>(memory, share, |other| other <= slot);
}

// Puts an entry into its list, before the first whose slot passes, or in its place where it has the same slot; the first ones stay, as many as there is room for.
fn put<L: Slotted<W>, const W: usize, F: Fn(u64) -> bool>(
    memory: &mut Memory,
    entry: &L::Entry,
    before: F,
)
    requires { F.IsAlwaysCallable before }
    ensures { (p : ℕ → Bool) → ((k : ℕ) (b : Bool) → F.post before k b → b ≡ p k) →
        Relists memory.old memory.new W L.REGION (λ t. take (room_of L.REGION t.sizes) (placed (λ r. p (slice_index r L.SLOT)) (λ r. nat_eq (slice_index r L.SLOT) (slice_index (L.Entry.numbers entry.now) L.SLOT)) (L.Entry.numbers entry.now) (L.rows t))) }
{
    let (span, room) = part::<L, W>(memory.layout);
    let row = entry.to_numbers();
    put_by::<L, W, _>(&mut memory.numbers[span], room, &row, before);
}

// The same in a lent region.
// Stays: the region and its room as parameters; a struct that holds the lent part of a memory was tried, and what the part becomes was lost to its caller's proof.
fn put_by<L: Slotted<W>, const W: usize, F: Fn(u64) -> bool>(
    region: &mut [u64],
    room: usize,
    row: &[u64; W],
    before: F,
)
    requires fits { 1 + W * room ≤ length region.old }
    requires asks { F.IsAlwaysCallable before }
    ensures { (p : ℕ → Bool) → ((k : ℕ) (b : Bool) → F.post before k b → b ≡ p k) → (rs : Sequence (Sequence ℕ)) → Holds W room rs region.old →
        region.new ≡ counted W room (take room (placed (λ r. p (slice_index r L.SLOT)) (λ r. nat_eq (slice_index r L.SLOT) (slice_index row.now L.SLOT)) row.now rs)) }
{
    let list = List::<W>::new(region, room);
    let place = place_for::<L, W, _>(list, before);
    if has_slot::<L, W>(list, place, row) {
        lists::replace(region, W, room, place, row);
    } else {
        lists::insert(region, W, room, place, row);
    }
}

// The place of the first entry whose slot passes, or the one behind all.
fn place_for<L: Slotted<W>, const W: usize, F: Fn(u64) -> bool>(list: List<W>, before: F) -> usize
    requires { F.IsAlwaysCallable before }
    ensures { (p : ℕ → Bool) → ((k : ℕ) (b : Bool) → F.post before k b → b ≡ p k) → (rs : Sequence (Sequence ℕ)) → Holds W list.entry.room rs list.entry.region.now →
        result ≡ first_passing (λ r. p (slice_index r L.SLOT)) rs }
{
    let slot = L::SLOT;
    list.find(|other| before(other[slot]))
        .unwrap_or(list.count())
}

// Whether the entry at a place has the slot of this one.
fn has_slot<L: Slotted<W>, const W: usize>(list: List<W>, place: usize, row: &[u64; W]) -> bool
    ensures { (rs : Sequence (Sequence ℕ)) → Holds W list.entry.room rs list.entry.region.now → result ≡ first_is (λ r. nat_eq (slice_index r L.SLOT) (slice_index row.now L.SLOT)) (drop place rs) }
{
    let slot = L::SLOT;
    match list.at(place) {
        Some(other) => other[slot] == row[slot],
        None => false,
    }
}
