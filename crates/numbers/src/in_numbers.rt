// What a row of numbers can hold.
ghost use Rattle.std.specs.Prelude.{◌≡◌, ℕ, ◌≤◌, List, length};

// A value of N numbers.
pub trait InNumbers<const N: usize>: Sized {
    // The numbers of a value.
    ghost numbers: { Self → List ℕ };

    // Holds of numbers and the value that is read in them.
    ghost reads: { List ℕ → Self → Type 0 };

    // The numbers of the value.
    fn to_numbers(&self) -> [u64; N]
        ensures { result ≡ numbers self.now };

    // The value in a row's first numbers.
    // Stays: a slice and no array, since a longer row is read as well.
    fn from_numbers(row: &[u64]) -> Self
        requires { N ≤ length row.now }
        ensures { reads row.now result };

    // Each value is read in its own numbers.
    ghost reads_back: { (x : Self) → reads (numbers x) x };

    // There are some numbers and not many.
    ghost few: { (1 ≤ N) × (N ≤ 64) };
}
