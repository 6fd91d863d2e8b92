// The public calls, on lent memory and lent bytes. None asks anything: they take any memory and any bytes.
ghost use Rattle.std.specs.Prelude.{◌≡◌, ◌≤◌, length};
ghost use Rattle.protocol.specs.Promise.{Right, NeverPunished};
ghost use Rattle.wire.specs.Meaning.{data_of};
ghost use Rattle.stored.specs.Numbers.{needed as numbers_needed};
ghost use Rattle.layout.specs.Layout.{limit_sizes};
ghost use Rattle.keeper.specs.Keeper.{keeper};
ghost use Rattle.client_in_memory.specs.Calls.{stage, Opens, Handled, Lets, Remembers};

use crate::errors::CallError;
use layout::{Layout, OpenError, View};
use protocol::Limits;
use steps::{allows, serve};
use store::{Listed, Past};
use wire::{Data, Entry};

// How many numbers the memory of a client with these limits has.
pub fn needed(limits: &Limits) -> usize
    ensures { result ≡ numbers_needed (limit_sizes limits.now) }
{
    layout::needed(limits)
}

// Makes the memory of a new client at the front of the slice.
pub fn open(memory: &mut [u64], limits: &Limits) -> Result<(), OpenError>
    ensures { Opens limits.now memory.old memory.new result }
{
    layout::open(memory, limits)?;
    Ok(())
}

// Takes an event's bytes, does what the client does with it, writes the answer's bytes at the front of `answer`, and says how many they are.
pub fn handle(memory: &mut [u64], event: &[u8], answer: &mut [u8]) -> Result<usize, CallError>
    ensures handled { Handled event.now memory.old memory.new answer.old answer.new result }
    ensures right { Right stage (keeper stage) }
    ensures safe { NeverPunished stage (keeper stage) }
{
    let layout = Layout::of(memory).ok_or(CallError::NotAClient)?;
    let size = layout.size();
    let n = serve(&mut memory[..size], &layout, event, answer)?;
    Ok(n)
}

// Whether the deciding for a slot may come to data, by the past as it is now.
pub fn may_decide(memory: &[u64], slot: u64, data: &Data) -> Result<bool, CallError>
    ensures { Lets memory.now slot (data_of «data».now) result }
{
    let view = View::of(memory).ok_or(CallError::NotAClient)?;
    Ok(allows(view, slot, data))
}

// The entry at a place of the past, the largest target first, if there are so many.
pub fn past(memory: &[u64], place: usize) -> Result<Option<Entry>, CallError>
    ensures { Remembers memory.now place result }
{
    let view = View::of(memory).ok_or(CallError::NotAClient)?;
    Ok(Past::at(view, place))
}
