// One client of a group. At this stage it can't do any event yet, and says so to each.
#![tactic(auto)]

ghost use Rattle.std.specs.Prelude.{◌≡◌, MatchResult};
ghost use Rattle.protocol.specs.Meaning.{limits_of, FirstWrong};
ghost use Rattle.protocol.specs.Promise.{GoodLimits};
ghost use Rattle.wire.specs.Meaning.{data_of};
ghost use Rattle.client.specs.Stage.{none, Replies, Lets, Remembers};

use events::{read_event, write_refused};
use protocol::{Limits, LimitsError, Refusal};
use wire::{Data, Entry, Short};

// A client, by the limits that it was opened with.
#[derive(Clone, Copy)]
pub struct Client {
    pub limits: Limits,
}

impl Client {
    // Opens a client, unless a limit is out of range.
    pub fn open(limits: Limits) -> Result<Client, LimitsError>
        ensures { MatchResult result (λ c. (c.limits ≡ limits) × GoodLimits none (limits_of none limits)) (λ e. FirstWrong limits e) }
    {
        limits.check()?;
        Ok(Client { limits })
    }

    // Takes an event's bytes, writes those of the answer at the front of `answer`, and says how many they are; nothing is written where they have no room.
    pub fn handle(&self, event: &[u8], answer: &mut [u8]) -> Result<usize, Short>
        ensures { Replies (limits_of none self.now.limits) event.now answer.old answer.new result }
    {
        match read_event(event) {
            Ok(_) => write_refused(answer, u8::from(Refusal::NotServed), 0),
            Err(garbled) => write_refused(answer, u8::from(Refusal::NoEvent), garbled.place),
        }
    }

    // Whether the deciding for a slot may come to data.
    pub fn may_decide(&self, _slot: u64, _data: &Data) -> bool
        ensures { Lets (limits_of none self.now.limits) _slot (data_of _data.now) result }
    {
        false
    }

    // The entry at a place of the past, the largest target first.
    pub fn past(&self, _place: usize) -> Option<Entry>
        ensures { Remembers (limits_of none self.now.limits) _place result }
    {
        None
    }
}
