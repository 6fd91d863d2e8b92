// A client in use: it holds the memory that was lent to open it. Each call promises of that memory what it promises of lent memory.
ghost use Rattle.std.specs.Prelude.{◌≡◌, [], MatchResult};
ghost use Rattle.protocol.specs.Meaning.{limits_of};
ghost use Rattle.wire.specs.Meaning.{data_of};
ghost use Rattle.layout.specs.Layout.{Unopened};
ghost use Rattle.client_in_memory.specs.Calls.{stage, After, Handled, Lets, Remembers};

use crate::calls;
use crate::errors::CallError;
use layout::OpenError;
use protocol::Limits;
use wire::{Data, Entry};

// A client over the memory that was lent to open it.
#[derive(Drop)]
pub struct Session<'a> {
    memory: &'a mut [u64],
}

impl<'a> Session<'a> {
    // Opens a client in lent memory, which it keeps.
    pub fn open(memory: &'a mut [u64], limits: &Limits) -> Result<Session<'a>, OpenError>
        ensures { MatchResult result (λ s. After (limits_of stage limits.now) [] s.memory.now) (λ e. Unopened limits.now e) }
    {
        calls::open(memory, limits)?;
        Ok(Session { memory })
    }

    // Takes an event's bytes, does what the client does with it, and writes the answer's bytes at the front of `answer`.
    pub fn handle(&mut self, event: &[u8], answer: &mut [u8]) -> Result<usize, CallError>
        ensures handled { Handled event.now self.old.memory.now self.new.memory.now answer.old answer.new result }
        ensures same { self.new.memory.ghost_name ≡ self.old.memory.ghost_name }
    {
        calls::handle(self.memory, event, answer)
    }

    // Whether the deciding for a slot may come to data, by the past as it is now.
    pub fn may_decide(&self, slot: u64, data: &Data) -> Result<bool, CallError>
        ensures { Lets self.now.memory.now slot (data_of «data».now) result }
    {
        calls::may_decide(self.memory, slot, data)
    }

    // The entry at a place of the past, the largest target first, if there are so many.
    pub fn past(&self, place: usize) -> Result<Option<Entry>, CallError>
        ensures { Remembers self.now.memory.now place result }
    {
        calls::past(self.memory, place)
    }
}
