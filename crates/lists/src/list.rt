// A list, lent to be read.
ghost use Rattle.std.specs.Prelude.{◌+◌, ◌*◌, ◌≤◌, length};

// A list of entries of W numbers each, in a lent region with room for so many.
#[derive(Clone, Copy)]
pub struct List<'a, const W: usize> {
    pub region: &'a [u64],
    pub room: usize,
    ghost fits: { 1 + W * room ≤ length region.now },
}
