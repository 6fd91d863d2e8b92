// A client's memory at the front of a slice, and its numbers and regions.
ghost use Rattle.std.specs.Prelude.{◌≡◌, ◌≤◌, true, false, length, take, MatchOption};
ghost use Rattle.stored.specs.Stored.{Stored};
ghost use Rattle.stored.specs.Numbers.{needed, sizes_in};
ghost use Rattle.layout.specs.Layout.{sizes, plausible, size_of, Front};
ghost use Rattle.layout.specs.Fields.{field_of, with_field};
ghost use Rattle.layout.specs.Memory.{Holds, Shows, Turns, content};

use crate::fields::Field;
use crate::header;
use crate::layout::Layout;
use crate::memory::{Memory, View};
use crate::region::Region;

impl<'a> View<'a> {
    // The memory at the front of a slice, if it may be a client's.
    pub fn of(numbers: &'a [u64]) -> Option<View<'a>>
        ensures { MatchOption result (plausible numbers.now ≡ false) (λ v. Front numbers.now v.layout × (v.numbers.now ≡ take (needed (sizes v.layout)) numbers.now)) }
    {
        let layout = Layout::of(numbers)?;
        Some(View {
            numbers: &numbers[..layout.size()],
            layout,
        })
    }

    // The numbers of a region.
    #[tactic(auto, using(crate::proofs::Places::shown))]
    pub fn region(&self, region: Region) -> &'a [u64]
        ensures sized { length result.now ≡ size_of (sizes self.now.layout) region }
        ensures shown { (t : Stored) → Shows self.now t → result.now ≡ content region t }
    {
        &self.numbers[self.layout.span(region)]
    }

    // A number of the header.
    pub fn get(&self, field: Field) -> u64
        ensures { (t : Stored) → Shows self.now t → result ≡ field_of field t }
    {
        header::get(self.numbers, field)
    }
}

impl Memory<'_> {
    // The same memory, to read.
    pub fn view(&self) -> View<'_>
        ensures numbers { result.numbers.now ≡ self.now.numbers.now }
        ensures layout { result.layout ≡ self.now.layout }
        ensures shows { (t : Stored) → Holds self.now t → Shows result t }
    {
        View {
            numbers: self.numbers,
            layout: self.layout,
        }
    }

    // Another number of the header in its place.
    pub fn put(&mut self, field: Field, value: u64)
        ensures { Turns self.old self.new (with_field field value) }
    {
        header::put(self.numbers, field, value);
    }
}
