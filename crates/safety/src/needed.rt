// Why each bound is needed: what fails with one weaker, each named by a contract.
ghost use Rattle.safety.specs.Bounds.{MeetJustWhen, NoFloorFails, OneBadMoreFails, SmallerQuorumFails};
ghost use Rattle.safety.specs.Queues.{NewestFirstFails};

// Of quorums no smaller than the number of bad clients allowed and no larger than the group, two must meet in a good client just when twice their size is above
// the clients and those allowed to be bad together.
pub fn meet_just_when_holds()
    ensures { MeetJustWhen }
{}

// With quorums one smaller two of them need not meet in a good client, whatever the size of the group.
pub fn smaller_quorum_fails()
    ensures { SmallerQuorumFails }
{}

// With one bad client more, two quorums need not meet in a good client: in every group of 3k + 1 and in every group of 3k. In a group of 3k + 2 they still would.
pub fn one_bad_more_fails()
    ensures { OneBadMoreFails }
{}

// Without the floor on targets what was forgotten can be contradicted.
pub fn no_floor_fails()
    ensures { NoFloorFails }
{}

// With the newest duty first in the queue duties are not begun in order.
pub fn newest_first_fails()
    ensures { NewestFirstFails }
{}
