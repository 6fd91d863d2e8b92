// What a client's memory holds, as lists, and its numbers: the definitions stand in specs/, and each function here has a theorem on them for its contract.
#![tactic(auto)]

ghost use Rattle.stored.specs.Kept.{ReadsBack, HasItsSize, NumbersFit};
ghost use Rattle.stored.specs.Stands.{FreshStands};

// A memory is read back as the client that it was made of.
pub fn reads_back_holds()
    ensures { ReadsBack }
{}

// It has just as many numbers as are needed, and that is within the allowance.
pub fn has_its_size_holds()
    ensures { HasItsSize }
{}

// Each of its numbers fits into 64 bits.
pub fn numbers_fit_holds()
    ensures { NumbersFit }
{}

// What was just opened stands for a new client of the definitions.
pub fn fresh_stands_holds()
    ensures { FreshStands }
{}
