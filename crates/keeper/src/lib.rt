// The client as steps over what its memory holds, and what is promised of it: each function's contract is a theorem.
#![tactic(auto)]

ghost use Rattle.keeper.specs.Keeper.{MemoryHolds, KeepsItsPromises};
ghost use Rattle.keeper.specs.Ready.{AlwaysReady};

// Whatever came, memory holds the stored client, and every number fits.
pub fn memory_holds_holds()
    ensures { MemoryHolds }
{}

// Whatever came, its numbers fit, and what waits and what is ahead is in the order of slots.
pub fn always_ready_holds()
    ensures { AlwaysReady }
{}

// Both halves of the main promise, and that what is turned away changes nothing and memory stays small.
pub fn keeps_its_promises_holds()
    ensures { KeepsItsPromises }
{}
