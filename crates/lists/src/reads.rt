// What a list is asked.
ghost use Rattle.std.specs.Prelude.{◌≡◌, ℕ, ◌+◌, ◌*◌, ◌<◌, ◌≤◌, Bool, List as Listed, length};
ghost use Rattle.rows.specs.Rows.{Takes, Tests};
ghost use Rattle.lists.specs.Lists.{Region, EntryAt, Long, lent, first_passing, place_in};

use crate::list::List;

// How many entries there are in a region with room for so many.
pub fn count(region: &[u64], room: usize) -> usize
    requires { 1 ≤ length region.now }
    ensures within { result ≤ room }
    ensures many { (w : ℕ) (rs : Listed (Listed ℕ)) → Region w room rs region.now → result ≡ length rs }
{
    (region[0] as usize).min(room)
}

// The entry at a place of a region, of any width, if there is one.
// Stays: the region, its width and its room as parameters, here and at `find`, since a caller may have a width only when it runs.
pub fn at(region: &[u64], width: usize, room: usize, place: usize) -> Option<&[u64]>
    requires { 1 + width * room ≤ length region.now }
    ensures { ((rs : Listed (Listed ℕ)) → Region width room rs region.now → EntryAt rs place (lent result)) × Long width (lent result) }
{
    if place >= count(region, room) {
        return None;
    }
    let start = 1 + width * place;
    Some(&region[start..start + width])
}

// The place of the first entry of a region, of any width, that passes, if one does.
// Stays: places in a loop. Entries of no width can be asked for too, of which no slice can be cut into rows; and a `find` over the places was tried: that its closure stays within the region at each place didn't close.
pub fn find<F: Fn(&[u64]) -> bool>(
    region: &[u64],
    width: usize,
    room: usize,
    which: F,
) -> Option<usize>
    requires fits { 1 + width * room ≤ length region.now }
    requires takes { Takes F.Fn which width }
    ensures { (p : Listed ℕ → Bool) → Tests F.Fn which width p → (rs : Listed (Listed ℕ)) → Region width room rs region.now → result ≡ place_in rs (first_passing p rs) }
{
    for place in 0..count(region, room) {
        let start = 1 + width * place;
        if which(&region[start..start + width]) {
            return Some(place);
        }
    }
    None
}

impl<'a, const W: usize> List<'a, W> {
    // The list in a region with room for so many entries.
    pub fn new(region: &'a [u64], room: usize) -> List<'a, W>
        requires { 1 + W * room ≤ length region.now }
        ensures same { result.region ≡ region.entry }
        ensures room { result.room ≡ room }
    {
        List { region, room }
    }

    // How many entries there are.
    pub fn count(self) -> usize
        ensures within { result ≤ self.entry.room }
        ensures many { (rs : Listed (Listed ℕ)) → Region W self.entry.room rs self.entry.region.now → result ≡ length rs }
    {
        count(self.region, self.room)
    }

    // The entry at a place, if there is one.
    pub fn at(self, place: usize) -> Option<&'a [u64; W]>
        ensures entry { (rs : Listed (Listed ℕ)) → Region W self.entry.room rs self.entry.region.now → EntryAt rs place (lent result) }
        ensures wide { Long W (lent result) }
    {
        if place >= self.count() {
            return None;
        }
        self.region[1 + W * place..].first_chunk()
    }

    // The entries, one after another.
    pub fn entries(self) -> &'a [[u64; W]]
        requires { 0 < W }
        ensures few { length result.now ≤ self.entry.room }
        ensures entries { (rs : Listed (Listed ℕ)) → Region W self.entry.room rs self.entry.region.now → result.now ≡ rs }
    {
        let (rows, _) = self.region[1..].as_chunks();
        &rows[..self.count()]
    }

    // The place of the first entry that passes, if one does.
    pub fn find<F: Fn(&[u64]) -> bool>(self, which: F) -> Option<usize>
        requires { Takes F.Fn which W }
        ensures { (p : Listed ℕ → Bool) → Tests F.Fn which W p → (rs : Listed (Listed ℕ)) → Region W self.entry.room rs self.entry.region.now → result ≡ place_in rs (first_passing p rs) }
    {
        find(self.region, W, self.room, which)
    }
}
