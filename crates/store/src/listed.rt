// The lists of a client's memory.
ghost use Rattle.std.specs.Prelude.{◌≡◌, ℕ, ◌+◌, ◌*◌, ◌<◌, ◌≤◌, List as Sequence, [], ◌∷◌, length, take, drop, Some, None, Option};
ghost use Rattle.stored.specs.Stored.{Sizes, Stored};
ghost use Rattle.stored.specs.Kept.{Well};
ghost use Rattle.layout.specs.Layout.{sizes, size_of, Spans};
ghost use Rattle.layout.specs.Memory.{Shows, content};
ghost use Rattle.layout.specs.declared.region.Region.{Region};
ghost use Rattle.lists.specs.Lists.{Region as Holds};
ghost use Rattle.rows.specs.Rows.{inserted, removed};
ghost use Rattle.store.specs.Relisted.{RelistsIf};
ghost use Rattle.store.specs.Rooms.{room_of};

use layout::{Layout, Memory, Region, View};
use lists::List;
use numbers::InNumbers;
use std::ops::Range;

// A list of entries of W numbers each: which region it is, what its entries are, and how they are read.
pub trait Listed<const W: usize> {
    type Entry: InNumbers<W>;

    // The region.
    ghost REGION: { Region };

    // A client's entries, in rows.
    ghost rows: { Stored → Sequence (Sequence ℕ) };

    // Holds of the entry at a place, if the list has so many.
    ghost found: { Stored → ℕ → Option Self.Entry → Type 0 };

    const REGION: Region;

    // The entries, in rows.
    fn rows(view: View<'_>) -> &[[u64; W]]
        ensures { (t : Stored) → Shows view.entry t → result.now ≡ rows t }
    {
        let region = view.region(Self::REGION);
        List::new(region, room(view.layout, Self::REGION)).entries()
    }

    // The entry at a place, if there are so many.
    fn at(view: View, place: usize) -> Option<Self::Entry>
        ensures { (t : Stored) → Shows view.entry t → found t place result }
    {
        let row = Self::rows(view).get(place)?;
        Some(Self::Entry::from_numbers(row))
    }

    // Its region has a number for the count and room for entries.
    ghost sized: { (z : Sizes) → size_of z REGION ≡ 1 + W * room_of REGION z };

    // A client's entries are what its region holds.
    ghost held: { (t : Stored) → Well t → Holds W (room_of REGION t.sizes) (rows t) (content REGION t) };

    // What is read in the row at a place is the entry there; where no row is, none is.
    ghost some: { (t : Stored) (i : ℕ) (row : Sequence ℕ) (e : Self.Entry) → row ∷ [] ≡ take 1 (drop i (rows t)) → Self.Entry.reads row e → found t i (Some e) };

    ghost none: { (t : Stored) (i : ℕ) → [] ≡ take 1 (drop i (rows t)) → found t i None };
}

// Where a list lies in memory of this layout, and how many entries it has room for.
pub(crate) fn part<L: Listed<W>, const W: usize>(layout: Layout) -> (Range<usize>, usize)
    ensures spans { Spans (sizes layout) L.REGION result.0 }
    ensures room { result.1 ≡ room_of L.REGION (sizes layout) }
{
    let region = L::REGION;
    (layout.span(region), room(layout, region))
}

// Puts an entry in at a place, before what was there; where there is no room the last one goes.
pub(crate) fn insert<L: Listed<W>, const W: usize>(
    memory: &mut Memory,
    place: usize,
    entry: &L::Entry,
)
    ensures { RelistsIf memory.old memory.new W L.REGION (λ t. place ≤ length (L.rows t)) (λ t. take (room_of L.REGION t.sizes) (inserted (L.rows t) place (L.Entry.numbers entry.now))) }
{
    let (span, room) = part::<L, W>(memory.layout);
    let row = entry.to_numbers();
    lists::insert(&mut memory.numbers[span], W, room, place, &row);
}

// Cuts the entry at a place out.
pub(crate) fn remove<L: Listed<W>, const W: usize>(memory: &mut Memory, place: usize)
    ensures { RelistsIf memory.old memory.new W L.REGION (λ t. place < length (L.rows t)) (λ t. removed (L.rows t) place) }
{
    let (span, room) = part::<L, W>(memory.layout);
    lists::remove(&mut memory.numbers[span], W, room, place);
}

// How many entries the list in a region has room for.
fn room(layout: Layout, region: Region) -> usize
    ensures { result ≡ room_of region (sizes layout) }
{
    match region {
        Region::Past => layout.kept,
        _ => layout.waiting,
    }
}
