// A group of right clients is never punished, and the steps on the way: each function's contract is a theorem.
ghost use Rattle.protocol.specs.Promise.{OneWord, ForItsSlot, WholeIsDecided, ForgettingIsSafe};
ghost use Rattle.protocol.specs.Runs.{RightIsSafe};

// Whichever events its clients can do, a group whose good clients do what the definitions say is never punished, whatever fewer than a third of it do.
pub fn right_is_safe_holds()
    ensures { RightIsSafe }
{}

// A good client never signs two things for one slot, for whichever seats.
pub fn one_word_holds()
    ensures { OneWord }
{}

// What was decided for a slot is for that slot, and its source is before its target.
pub fn for_its_slot_holds()
    ensures { ForItsSlot }
{}

// Whole is only what was decided.
pub fn whole_is_decided_holds()
    ensures { WholeIsDecided }
{}

// What is not unsafe with the entries that are kept clashes with none that was forgotten.
pub fn forgetting_is_safe_holds()
    ensures { ForgettingIsSafe }
{}
