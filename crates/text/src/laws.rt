// What holds of roots as text: each contract is a theorem.
ghost use Rattle.text.specs.Laws.{SmallRootsAsNumbers, RootsReadBack};

// A root that a number of eight bytes holds is printed as that number is.
#[tactic(auto, using(crate::proofs::RootLaws::small_roots))]
pub fn small_roots_as_numbers_holds()
    ensures { SmallRootsAsNumbers }
{}

// The digits of a root's text stand for the root.
#[tactic(auto, using(crate::proofs::RootLaws::roots_back))]
pub fn roots_read_back_holds()
    ensures { RootsReadBack }
{}
