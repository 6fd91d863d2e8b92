// The first of some marks, and how many of some cells.
ghost use Rattle.std.specs.Prelude.{◌≡◌, ℕ, ◌<◌, ◌≤◌, ◌==◌, List, filter, length, IfSome, nat_eq};
ghost use Rattle.std.specs.Cmp.Lexicographic.{pointwise};
ghost use Rattle.std.specs.List.{position};

// How many numbers a cell has.
pub(crate) const WIDTH: usize = 18;

// The place of the first mark that is this one, if there is one.
pub(crate) fn place_of(marks: &[u64], mark: u64) -> Option<usize>
    ensures within { IfSome result (λ i. i < length marks.now) }
    ensures first { result ≡ position (λ other. (other == mark)) marks.now }
{
    marks.iter().position(|other| *other == mark)
}

// How many cells are just this one.
pub(crate) fn count_same(cells: &[[u64; WIDTH]], wanted: &[u64; WIDTH]) -> usize
    ensures within { result ≤ length cells.now }
    ensures counted { result ≡ length (filter (λ (cell : List ℕ). pointwise nat_eq cell wanted.now) cells.now) }
{
    cells.iter().filter(|cell| *cell == wanted).count()
}
