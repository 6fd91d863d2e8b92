// Values whose bytes have a fixed length.
ghost use Rattle.std.specs.Prelude.{◌≡◌, ℕ, ◌+◌, ◌<◌, ◌≤◌, List, length, drop, MatchOption, MatchResult};
ghost use Rattle.wire.specs.Fixed.{Written, Unwritten, placed};

// The slice is too short for the value.
#[derive(Clone, Copy, PartialEq, Eq, Debug)]
pub struct Short;

// A value whose bytes have a fixed length.
pub trait Fixed: Sized {
    // How many bytes it has.
    ghost width: { ℕ };

    // The bytes of a value.
    ghost coded: { Self → List ℕ };

    // Whether a value is what the front of some bytes stands for.
    ghost reads: { List ℕ → Self → Type 0 };

    // How many bytes it has.
    // Stays: a public function that callers have and that promises `width`; a constant would take it from them.
    fn size() -> usize
        ensures { result ≡ width };

    // What the bytes from a place on stand for.
    fn at(bytes: &[u8], place: usize) -> Self
        requires { place + width ≤ length bytes.now }
        ensures { reads (drop place bytes.now) result };

    // Puts the value's bytes at a place.
    fn put(&self, out: &mut [u8], place: usize)
        requires { place + width ≤ length out.old }
        ensures { out.new ≡ placed place width (coded self.now) out.old };

    // What the front of the bytes stands for, if they are long enough.
    fn read(bytes: &[u8]) -> Option<Self>
        ensures { MatchOption result (length bytes.now < width) (λ x. (width ≤ length bytes.now) × reads bytes.now x) }
    {
        if bytes.len() < Self::size() {
            return None;
        }
        Some(Self::at(bytes, 0))
    }

    // Writes the value's bytes at the front of `out` and says how many they are; nothing is changed where they have no room.
    fn write(&self, out: &mut [u8]) -> Result<usize, Short>
        ensures { MatchResult result (Written width (coded self.now) out.old out.new) (λ _. Unwritten width out.old out.new) }
    {
        if out.len() < Self::size() {
            return Err(Short);
        }
        self.put(out, 0);
        Ok(Self::size())
    }

    ghost long: { (x : Self) → length (coded x) ≡ width };

    ghost narrow: { width < 256 };
}
