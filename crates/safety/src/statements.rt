// The promises on whole runs, each named by a contract.
ghost use Rattle.protocol.specs.Promise.{QuorumsMeet, InOrder, TurnedAway, HandedIsWhole};
ghost use Rattle.protocol.specs.Refusals.{FirstThatApplies};
ghost use Rattle.protocol.specs.Runs.{AlwaysHandedIsWhole, BegunInOrder, HandedAtQuorum, Reaches};
ghost use Rattle.safety.specs.Cutting.{CuttingIsHarmless};

// Quorums meet in a good client.
pub fn quorums_meet_holds()
    ensures { QuorumsMeet }
{}

// Keeping n of what was kept and one more is keeping n of all and one more.
pub fn cutting_is_harmless_holds()
    ensures { CuttingIsHarmless }
{}

// An event that is turned away changes nothing.
pub fn turned_away_holds()
    ensures { TurnedAway }
{}

// What is being decided at a client is for slots below any duty that it would still take.
pub fn in_order_holds()
    ensures { InOrder }
{}

// A client begins duties in the order of their slots, each slot once.
pub fn begun_in_order_holds()
    ensures { BegunInOrder }
{}

// An event is turned away by the first refusal that applies, and taken where none does.
pub fn first_that_applies_holds()
    ensures { FirstThatApplies }
{}

// When a share makes a quorum for its data and seat, the data is handed in then.
pub fn handed_at_quorum_holds()
    ensures { HandedAtQuorum }
{}

// What is handed in when a share comes is whole.
pub fn handed_is_whole_holds()
    ensures { HandedIsWhole }
{}

// Whatever event comes, what is handed in is whole.
pub fn always_handed_is_whole_holds()
    ensures { AlwaysHandedIsWhole }
{}

// In every group the good clients alone can make attestations of two slots whole, with any right client that can do duties and what is decided.
pub fn reaches_holds()
    ensures { Reaches }
{}
