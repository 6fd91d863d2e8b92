// What every right client does, so that a weaker one is not right: each named by a contract.
ghost use Rattle.safety.specs.Weaker.{ItSigns, ItAlwaysSigns, ItLets, ItDoesNotLet, ItLooksAtEach, ItLooksWhenAsked, ItHandsIn, ItCountsEachOnce, ItCountsBySeat, ItsOwnCountsWhenItComes};

// A new client begins the duty that it is given, and signs what is decided for it.
pub fn it_signs_holds()
    ensures { ItSigns }
{}

// Whatever came before, what is decided for the duty at hand is signed.
pub fn it_always_signs_holds()
    ensures { ItAlwaysSigns }
{}

// It lets the deciding come to data that is valid.
pub fn it_lets_holds()
    ensures { ItLets }
{}

// It does not let the deciding come to data that is not.
pub fn it_does_not_let_holds()
    ensures { ItDoesNotLet }
{}

// It looks at each entry of the past that it keeps, not only at the least.
pub fn it_looks_at_each_holds()
    ensures { ItLooksAtEach }
{}

// It lets by the past as it is when it is asked, not as it was when the deciding began.
pub fn it_looks_when_asked_holds()
    ensures { ItLooksWhenAsked }
{}

// It hands in what a quorum of different clients signed for one seat, at the last of their shares and not before.
pub fn it_hands_in_holds()
    ensures { ItHandsIn }
{}

// It refuses a second share of a client for a slot.
pub fn it_counts_each_once_holds()
    ensures { ItCountsEachOnce }
{}

// It does not count shares for different seats, or of different data, together.
pub fn it_counts_by_seat_holds()
    ensures { ItCountsBySeat }
{}

// It counts its own share when it comes as a share, not when it signs.
pub fn its_own_counts_when_it_comes_holds()
    ensures { ItsOwnCountsWhenItComes }
{}
