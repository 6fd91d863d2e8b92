// What a memory is laid out by, and where the regions lie.
ghost use Rattle.std.specs.Prelude.{◌≡◌, ◌+◌, ◌*◌, ◌≤◌, true, false, length, nat_le, slice_index, MatchOption, MatchResult};
ghost use Rattle.protocol.specs.Meaning.{FirstWrong};
ghost use Rattle.stored.specs.Numbers.{needed, sizes_in};
ghost use Rattle.layout.specs.Layout.{sizes, limit_sizes, start_of, size_of, Spans, counts_fit, plausible, Front};

use crate::layout::Layout;
use crate::region::Region;
use protocol::{Limits, LimitsError};
use std::ops::Range;

// How many numbers the memory of a client with these limits has.
pub fn needed(limits: &Limits) -> usize
    ensures { result ≡ needed (limit_sizes limits.now) }
{
    numbers_for(
        usize::from(limits.clients),
        usize::from(limits.kept),
        usize::from(limits.waiting),
    )
}

// How many numbers there are for so many clients, entries of the past and duties.
fn numbers_for(clients: usize, kept: usize, waiting: usize) -> usize
    requires { (clients ≤ 65535) × (kept ≤ 65535) × (waiting ≤ 255) }
    ensures { result ≡ 13 + 2 * kept + 42 * waiting + 36 * (clients * waiting) }
{
    13 + 2 * kept + 42 * waiting + 36 * (clients * waiting)
}

impl TryFrom<&Limits> for Layout {
    type Error = LimitsError;

    ghost try_from_gives = { λ limits r. MatchResult r (λ l. sizes l ≡ limit_sizes limits.now) (λ e. FirstWrong limits.now e) };

    fn try_from(limits: &Limits) -> Result<Layout, LimitsError> {
        limits.check()?;
        Ok(Layout {
            clients: usize::from(limits.clients),
            me: usize::from(limits.me),
            kept: usize::from(limits.kept),
            waiting: usize::from(limits.waiting),
        })
    }
}

impl Layout {
    // The number by which a memory of this layout begins.
    pub const FORMAT: u64 = 1;
    // How many numbers the header has.
    const HEADER: usize = 8;

    // How many numbers memory has.
    pub fn size(&self) -> usize
        ensures { result ≡ needed (sizes self.now) }
    {
        numbers_for(self.clients, self.kept, self.waiting)
    }

    // Where a region lies: each begins where the one before it ends.
    pub fn span(&self, region: Region) -> Range<usize>
        ensures { Spans (sizes self.now) region result }
    {
        let past = Self::HEADER + 1 + 2 * self.kept;
        let queue = past + 1 + 3 * self.waiting;
        let active = queue + 1 + 3 * self.waiting;
        let ahead = active + 1 + 16 * self.waiting;
        let own = ahead + 1 + 18 * self.waiting;
        let marks = own + 2 * self.waiting;
        match region {
            Region::Past => Self::HEADER..past,
            Region::Queue => past..queue,
            Region::Active => queue..active,
            Region::Ahead => active..ahead,
            Region::Own => ahead..own,
            Region::Marks => own..marks,
            Region::Cells => marks..marks + 36 * (self.clients * self.waiting),
        }
    }

    // Whether the list in a region says that it has no more entries than there is room for.
    fn count_fits(&self, memory: &[u64], region: Region, room: usize) -> bool
        requires long { needed (sizes self.now) ≤ length memory.now }
        requires some { 1 ≤ size_of (sizes self.now) region }
        ensures { result ≡ nat_le (slice_index memory.now (start_of (sizes self.now) region)) room }
    {
        memory[self.span(region).start] <= room as u64
    }

    // Whether no list says that it has more entries than there is room for.
    fn counts_fit(&self, memory: &[u64]) -> bool
        requires { needed (sizes self.now) ≤ length memory.now }
        ensures { result ≡ counts_fit (sizes self.now) memory.now }
    {
        self.count_fits(memory, Region::Past, self.kept)
            && [Region::Queue, Region::Active, Region::Ahead, Region::Own]
                .iter()
                .all(|region| self.count_fits(memory, *region, self.waiting))
    }

    // The layout that a memory's header gives, if that may be a client's: tested against the length and the counts, in constant time.
    pub fn of(memory: &[u64]) -> Option<Layout>
        ensures { MatchOption result (plausible memory.now ≡ false) (λ l. Front memory.now l) }
    {
        let [format, clients, me, kept, waiting, ..] = memory else {
            return None;
        };
        if *format != Self::FORMAT {
            return None;
        }
        let limits = Limits {
            clients: u16::try_from(*clients).ok()?,
            me: u16::try_from(*me).ok()?,
            kept: u16::try_from(*kept).ok()?,
            waiting: u8::try_from(*waiting).ok()?,
        };
        let layout = Layout::try_from(&limits).ok()?;
        if memory.len() < layout.size() || !layout.counts_fit(memory) {
            return None;
        }
        Some(layout)
    }
}
