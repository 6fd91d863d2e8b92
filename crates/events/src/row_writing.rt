// Rows of entries into bytes.
ghost use Rattle.std.specs.Prelude.{◌≡◌, ◌+◌, ◌*◌, ◌≤◌, false, true, length, MatchOption};
ghost use Rattle.wire.specs.Fixed.{placed};
ghost use Rattle.events.specs.Layout.{all_bytes, row_bytes};
ghost use Rattle.events.specs.Rows.{few};

use wire::Fixed;

// Entries so few that a byte counts them.
#[derive(Drop)]
pub(crate) struct Few<'a, T> {
    entries: &'a [T],
    count: u8,
    ghost counted: { count ≡ length entries.now },
}

impl<'a, T: Fixed> Few<'a, T> {
    // These entries, if a byte counts them.
    pub(crate) fn of(entries: &'a [T]) -> Option<Few<'a, T>>
        ensures { MatchOption result (few entries.now ≡ false) (λ r. (few entries.now ≡ true) × (r.entries.now ≡ entries.now)) }
    {
        let count = u8::try_from(entries.len()).ok()?;
        Some(Few { entries, count })
    }

    // How many bytes a row of them has.
    pub(crate) fn size(&self) -> usize
        ensures counted { result ≡ 1 + T.Fixed.width * length self.now.entries.now }
        ensures small { result ≤ 65026 }
    {
        1 + T::size() * self.entries.len()
    }

    // Puts a row of them from a place on: it is handed the part of the bytes that starts there. Says where the row ends.
    pub(crate) fn put(&self, out: &mut [u8], at: usize) -> usize
        requires { at + (1 + T.Fixed.width * length self.now.entries.now) ≤ length out.old }
        ensures ends { result ≡ at + (1 + T.Fixed.width * length self.now.entries.now) }
        ensures holds { out.new ≡ placed at (1 + T.Fixed.width * length self.now.entries.now) (row_bytes T.Fixed.coded self.now.entries.now) out.old }
    {
        at + self.write(&mut out[at..])
    }

    // Writes a row of them, their count and then each, at the front of some bytes, and says how many they are.
    fn write(&self, out: &mut [u8]) -> usize
        requires { 1 + T.Fixed.width * length self.now.entries.now ≤ length out.old }
        ensures counted { result ≡ 1 + T.Fixed.width * length self.now.entries.now }
        ensures holds { out.new ≡ placed 0 (1 + T.Fixed.width * length self.now.entries.now) (row_bytes T.Fixed.coded self.now.entries.now) out.old }
    {
        out[0] = self.count;
        put_entries(out, 1, self.entries)
    }
}

// Puts entries one after the other, from a place on, and says where they end.
fn put_entries<T: Fixed>(out: &mut [u8], at: usize, entries: &[T]) -> usize
    requires { at + T.Fixed.width * length entries.now ≤ length out.old }
    ensures ends { result ≡ at + T.Fixed.width * length entries.now }
    ensures holds { out.new ≡ placed at (T.Fixed.width * length entries.now) (all_bytes T.Fixed.coded entries.now) out.old }
{
    // Stays: the place moves on by hand; behind `chunks_mut`, which would part the bytes by entries, a proof knows their length and not what was written.
    let mut end = at;
    for entry in entries {
        entry.put(out, end);
        end += T::size();
    }
    end
}
