// Rows of entries in lent bytes.
ghost use Rattle.std.specs.Prelude.{◌≡◌, ◌≤◌, false, MatchOption};
ghost use Rattle.events.specs.Layout.{row_there};
ghost use Rattle.events.specs.Rows.{EntryAt, InFront};

use wire::Fixed;

// A row as it lies in some bytes: how many entries there are, and the part of the bytes that holds them, one after the other.
// Stays: lent bytes with a count beside them, since a row may be cut short: it can't be written then, and has no text.
#[derive(Clone, Copy)]
pub struct Row<'a> {
    pub count: u8,
    pub bytes: &'a [u8],
}

// A row at the front of some bytes, and what stands behind it.
#[derive(Clone, Copy)]
pub struct Split<'a> {
    pub row: Row<'a>,
    pub rest: &'a [u8],
}

impl Row<'_> {
    // How many entries there are.
    pub fn len(&self) -> usize
        ensures counted { result ≡ self.now.count }
        ensures few { result ≤ 255 }
    {
        usize::from(self.count)
    }

    // The entry at a place, if the row has so many and its bytes reach that far.
    pub fn get<T: Fixed>(&self, i: usize) -> Option<T>
        ensures { EntryAt T.Fixed.width T.Fixed.reads self.now.count self.now.bytes.now i result }
    {
        if i >= self.len() {
            return None;
        }
        T::read(self.bytes.get(T::size() * i..)?)
    }
}

// The row at the front of some bytes, if all of it is there.
pub fn split_row<T: Fixed>(bytes: &[u8]) -> Option<Split<'_>>
    ensures { MatchOption result (row_there T.Fixed.width bytes.now ≡ false) (λ s. InFront T.Fixed.width bytes.now s.row.count s.row.bytes.now s.rest.now) }
{
    let (count, behind) = bytes.split_first()?;
    let (bytes, rest) = behind.split_at_checked(T::size() * usize::from(*count))?;
    let row = Row {
        count: *count,
        bytes,
    };
    Some(Split { row, rest })
}
