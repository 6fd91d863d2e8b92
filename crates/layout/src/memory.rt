// A client's memory as it is lent: its numbers, and what they are laid out by.
ghost use Rattle.std.specs.Prelude.{◌≡◌, length};
ghost use Rattle.stored.specs.Numbers.{needed};
ghost use Rattle.layout.specs.Layout.{sizes};

use crate::layout::Layout;

// A memory to write to.
#[derive(Drop)]
pub struct Memory<'a> {
    pub numbers: &'a mut [u64],
    pub layout: Layout,
    ghost whole: { length numbers.now ≡ needed (sizes layout) },
}

// A memory to read.
#[derive(Clone, Copy)]
pub struct View<'a> {
    pub numbers: &'a [u64],
    pub layout: Layout,
    ghost whole: { length numbers.now ≡ needed (sizes layout) },
}
