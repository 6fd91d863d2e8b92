// An event by its bytes.
ghost use Rattle.std.specs.Prelude.{◌≡◌, length};
ghost use Rattle.protocol.specs.Promise.{thin};
ghost use Rattle.events.specs.Layout.{parse};
ghost use Rattle.stored.specs.Numbers.{needed};
ghost use Rattle.layout.specs.Layout.{sizes};
ghost use Rattle.steps.specs.Served.{Served, Step};

use crate::answers::refuse;
use crate::decided::on_decided;
use crate::duty::on_duty;
use crate::share::on_share;
use events::{Event, read_event, write_refused};
use layout::{Layout, Memory};
use protocol::Refusal;
use wire::Short;

// Takes an event: what bytes it is, what the client does with it, and the answer's bytes at the front of `out`. Blocks and resending are not served yet.
// Stays: the numbers and their layout as parameters; a memory over a part of a slice was tried, and what the part becomes was lost to the caller's proof.
pub fn serve(
    memory: &mut [u64],
    layout: &Layout,
    event: &[u8],
    out: &mut [u8],
) -> Result<usize, Short>
    requires { length memory.old ≡ needed (sizes layout.now) }
    ensures { Served (sizes layout.now) thin (parse event.now) memory.old memory.new out.old out.new result }
{
    let mut memory = Memory {
        numbers: memory,
        layout: *layout,
    };
    take_event(&mut memory, event, out)
}

// The same, over the memory as it is laid out.
fn take_event(memory: &mut Memory, event: &[u8], out: &mut [u8]) -> Result<usize, Short>
    ensures { Step thin (parse event.now) memory.old memory.new out.old out.new result }
{
    match read_event(event) {
        Ok(Event::OnDuty(duty)) => on_duty(memory, &duty, out),
        Ok(Event::Decided(slot, data)) => on_decided(memory, slot, &data, out),
        Ok(Event::ShareCame(_)) => on_share(memory, &event[1..], out),
        Ok(Event::Block(_)) => refuse(out, Refusal::NotServed),
        Ok(Event::Resend) => refuse(out, Refusal::NotServed),
        Err(garbled) => write_refused(out, u8::from(Refusal::NoEvent), garbled.place),
    }
}
