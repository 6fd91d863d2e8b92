// What goes by its slot from a list.
ghost use Rattle.std.specs.Prelude.{◌≡◌, ℕ, ◌<◌, Bool, not, nat_le, slice_index};
ghost use Rattle.rows.specs.Rows.{kept};
ghost use Rattle.stored.specs.Stored.{Stored};
ghost use Rattle.stored.specs.Kept.{Well};
ghost use Rattle.layout.specs.Memory.{Turns};
ghost use Rattle.store.specs.Among.{among};
ghost use Rattle.store.specs.Relisted.{Relisted};

use crate::listed::{Listed, part};
use layout::Memory;

// A list whose entries go by their slots.
pub trait Slotted<const W: usize>: Listed<W> {
    // Where an entry has its slot.
    ghost SLOT: { ℕ };

    // A client with just those of the entries whose slots pass.
    ghost only: { (ℕ → Bool) → Stored → Stored };

    const SLOT: usize;

    // A slot is one of an entry's numbers.
    ghost inside: { SLOT < W };

    // Those of its rows that pass are the entries of that client.
    ghost keeps: { (p : ℕ → Bool) (t : Stored) → Well t → Relisted W Self.REGION (kept (λ row. p (slice_index row SLOT)) (Self.rows t)) t (only p t) };
}

// What is for one of these slots goes, as the rest is moved together.
pub fn drop_slots<L: Slotted<W>, const W: usize>(memory: &mut Memory, slots: &[u64])
    ensures { Turns memory.old memory.new (L.only (λ k. not (among k slots.now))) }
{
    keep::<L, W, _>(memory, |slot| !is_among(slot, slots));
}

// Whether a slot is one of these.
// Stays: a loop to the end, which looks at several at once; `contains`, which stops at the first, took more than twice as long for 64 that aren't there.
fn is_among(slot: u64, slots: &[u64]) -> bool
    ensures { result ≡ among slot slots.now }
{
    let mut found = false;
    for other in slots {
        found |= *other == slot;
    }
    found
}

// What is for slots before this one goes.
pub fn drop_before<L: Slotted<W>, const W: usize>(memory: &mut Memory, slot: u64)
    ensures { Turns memory.old memory.new (L.only (λ k. nat_le slot k)) }
{
    keep::<L, W, _>(memory, |of| slot <= of);
}

// Just what is for slots that pass stays.
fn keep<L: Slotted<W>, const W: usize, F: Fn(u64) -> bool>(memory: &mut Memory, which: F)
    requires { F.IsAlwaysCallable which }
    ensures { (p : ℕ → Bool) → ((k : ℕ) (b : Bool) → F.post which k b → b ≡ p k) → Turns memory.old memory.new (L.only p) }
{
    let (span, room) = part::<L, W>(memory.layout);
    let place = L::SLOT;
    lists::keep(&mut memory.numbers[span], W, room, |row| which(row[place]));
}
