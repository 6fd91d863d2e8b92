// The banks of a client's memory. A bank has a mark, 0 where it is free and else one more than its slot, and a cell for each client: zeros where no share of it came, and else 1, a seat and data.
// Stays: numbers for the marks and for a cell's first number (0 or 1), since a client's memory is numbers.
// Stays: what writes takes a place and asks that it is there: a bank to write would hold the whole memory by `&mut`, of which the promises tell what it turns into.
ghost use Rattle.std.specs.Prelude.{◌≡◌, ◌*◌, ◌<◌, ◌≤◌, length, replicate, IfSome, MatchOption, slice_index_or, slice_set};
ghost use Rattle.wire.specs.Meaning.{data_of};
ghost use Rattle.stored.specs.Stored.{Stored, empty, holds, with_banks, place_of as first_with, bank_at, marked, with_cells, taken, freed, is_empty, alike};
ghost use Rattle.layout.specs.Layout.{sizes};
ghost use Rattle.layout.specs.Memory.{Shows, Turns};
ghost use Rattle.banks.specs.Banks.{CellsAt, numbers_of};

use crate::searches::{WIDTH, count_same, place_of};
use layout::{Layout, Memory, Region, View};
use numbers::share_numbers;
use std::ops::Range;
use wire::Data;

// Where the cells of the bank at a place lie.
#[tactic(auto, using(crate::proofs::Bounds::bank_fits))]
fn cells_at(layout: &Layout, place: usize) -> Range<usize>
    requires { place < 2 * layout.now.waiting }
    ensures { CellsAt (sizes layout.now) place result }
{
    let width = WIDTH * layout.clients;
    let start = layout.span(Region::Cells).start + width * place;
    start..start + width
}

// A bank that is there, in a memory to read.
#[derive(Clone, Copy)]
pub struct Bank<'a> {
    pub memory: View<'a>,
    pub place: usize,
    ghost inside: { place < 2 * memory.layout.waiting },
}

impl<'a> Bank<'a> {
    // Its cells.
    #[tactic(auto, using(crate::proofs::Held::bank_lent))]
    fn cells(self) -> &'a [u64]
        ensures sized { length result.now ≡ 18 * self.entry.memory.layout.clients }
        ensures shown { (t : Stored) → Shows self.entry.memory t → result.now ≡ numbers_of (bank_at t.banks self.entry.place).cells }
    {
        &self.memory.numbers[cells_at(&self.memory.layout, self.place)]
    }

    // Whether no share of a client came to it: its cell is empty, which its first number says.
    #[tactic(auto, using(crate::proofs::Alike::empty_tells, crate::proofs::Places::cell_at))]
    pub fn is_empty(self, who: usize) -> bool
        requires { who < self.memory.layout.clients }
        ensures { (t : Stored) → Shows self.entry.memory t → result ≡ is_empty (slice_index_or (bank_at t.banks self.entry.place).cells who empty) }
    {
        self.cells()[WIDTH * who] == 0
    }

    // How many clients' shares in it say the same data for the same seat.
    pub fn count_alike(self, seat: u64, data: &Data) -> usize
        ensures within { result ≤ self.entry.memory.layout.clients }
        ensures counted { (t : Stored) → Shows self.entry.memory t → result ≡ alike seat (data_of «data».now) (bank_at t.banks self.entry.place).cells }
    {
        let (cells, _) = self.cells().as_chunks::<WIDTH>();
        let wanted = share_numbers(1, seat, data);
        count_same(cells, &wanted)
    }
}

// The first bank with a mark, if there is one.
pub fn bank_with(memory: View<'_>, mark: u64) -> Option<Bank<'_>>
    ensures of { IfSome result (λ b. b.memory ≡ memory.entry) }
    ensures first { (t : Stored) → Shows memory.entry t → MatchOption result (first_with mark t.banks ≡ length t.banks) (λ b. b.place ≡ first_with mark t.banks) }
{
    let place = place_of(memory.region(Region::Marks), mark)?;
    Some(Bank { memory, place })
}

// Gives the bank at a place another mark.
fn set_mark(memory: &mut Memory<'_>, place: usize, mark: u64)
    requires { place < 2 * memory.old.layout.waiting }
    ensures { Turns memory.old memory.new (λ t. with_banks (marked t.banks place mark) t) }
{
    let marks = memory.layout.span(Region::Marks);
    memory.numbers[marks][place] = mark;
}

// Takes the first free bank for a slot; nothing is changed where none is free.
// Stays: `take` and `free` ask for a slot that is less than the largest number, which no mark stands for; a function from a slot to its mark was no plainer, since both would ask the same still.
pub fn take(memory: &mut Memory<'_>, slot: u64)
    requires { slot < 18446744073709551615 }
    ensures { Turns memory.old memory.new (λ t. with_banks (taken slot t.banks) t) }
{
    if let Some(Bank { place, .. }) = bank_with(memory.view(), 0) {
        set_mark(memory, place, slot + 1);
    }
}

// Frees the bank of a slot, with all its cells emptied; nothing is changed where no bank is the slot's.
pub fn free(memory: &mut Memory<'_>, slot: u64)
    requires { slot < 18446744073709551615 }
    ensures { Turns memory.old memory.new (λ t. with_banks (freed t.sizes.clients slot t.banks) t) }
{
    if let Some(Bank { place, .. }) = bank_with(memory.view(), slot + 1) {
        clear(memory, place);
        set_mark(memory, place, 0);
    }
}

// Empties all the cells of the bank at a place.
pub fn clear(memory: &mut Memory<'_>, place: usize)
    requires { place < 2 * memory.old.layout.waiting }
    ensures { Turns memory.old memory.new (λ t. with_banks (with_cells t.banks place (replicate t.sizes.clients empty)) t) }
{
    let cells = cells_at(&memory.layout, place);
    memory.numbers[cells].fill(0);
}

// Writes a client's share into its cell of the bank at a place: the seat and the data that it says.
pub fn put(memory: &mut Memory<'_>, place: usize, who: usize, seat: u64, data: &Data)
    requires { (place < 2 * memory.old.layout.waiting) × (who < memory.old.layout.clients) }
    ensures { Turns memory.old memory.new (λ t. with_banks (with_cells t.banks place (slice_set (bank_at t.banks place).cells who (holds seat (data_of «data».now)))) t) }
{
    let cells = cells_at(&memory.layout, place);
    let start = WIDTH * who;
    memory.numbers[cells][start..start + WIDTH].copy_from_slice(&share_numbers(1, seat, data));
}
