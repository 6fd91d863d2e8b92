// The numbers of the header that change.
ghost use Rattle.std.specs.Prelude.{◌≡◌};
ghost use Rattle.layout.specs.Fields.{field_place};

// By its place in the header: whether a duty is at hand (1) or none is (0); one more than the slot of the last duty begun; one more than that of the last duty given.
// Stays: a number even where it says yes or no, since a client's memory is numbers.
#[derive(Clone, Copy)]
pub enum Field {
    AtHand = 5,
    Latest = 6,
    After = 7,
}

impl Field {
    // Its place in the header.
    pub(crate) fn place(self) -> usize
        ensures { result ≡ field_place self }
    {
        self as usize
    }
}
