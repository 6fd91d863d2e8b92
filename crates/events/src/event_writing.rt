// Events into bytes.
ghost use Rattle.std.specs.Prelude.{◌*◌, true, ◌∷◌, length, nat_le};
ghost use Rattle.events.specs.Kinds.{event_kind};
ghost use Rattle.events.specs.Layout.{entries, event_bytes};
ghost use Rattle.events.specs.Meaning.{event_of};
ghost use Rattle.events.specs.Rows.{few};
ghost use Rattle.events.specs.Writing.{Outcome, block_bytes, row_long_enough};
ghost use Rattle.protocol.specs.Client.{block, resend};
ghost use Rattle.wire.specs.Bytes.{data_from};

use crate::event::Event;
use crate::kind::EventKind;
use crate::not_written::NotWritten;
use crate::row_writing::Few;
use wire::{Data, Fixed};

// Writes an event at the front of `out`, if a block's row reaches as far as its count.
pub fn write_event(out: &mut [u8], event: &Event) -> Result<usize, NotWritten>
    ensures { Outcome (row_long_enough event.now) (event_bytes (event_of event.now)) out.old out.new result }
{
    match *event {
        Event::OnDuty(duty) => write_one(out, EventKind::Duty, &duty),
        Event::Decided(slot, data) => write_one(out, EventKind::Decided, &(slot, data)),
        Event::ShareCame(share) => write_one(out, EventKind::Share, &share),
        Event::Block(row) => write_lent(out, row.count, row.bytes),
        Event::Resend => write_resend(out),
    }
}

// Writes a block of this data at the front of `out`, if its count is a byte.
pub fn write_block(out: &mut [u8], data: &[Data]) -> Result<usize, NotWritten>
    ensures { Outcome (few «data».now) (block_bytes «data».now) out.old out.new result }
{
    let row = Few::of(data).ok_or(NotWritten::BadRow)?;
    if out.len() < 1 + row.size() {
        return Err(NotWritten::Short);
    }
    out[0] = u8::from(EventKind::Block);
    Ok(row.put(out, 1))
}

// An event's number and one value.
fn write_one<T: Fixed>(out: &mut [u8], kind: EventKind, value: &T) -> Result<usize, NotWritten>
    ensures { Outcome true (event_kind kind ∷ T.Fixed.coded value.now) out.old out.new result }
{
    if out.len() < 1 + T::size() {
        return Err(NotWritten::Short);
    }
    out[0] = u8::from(kind);
    value.put(out, 1);
    Ok(1 + T::size())
}

// A block whose data lies in lent bytes.
fn write_lent(out: &mut [u8], count: u8, bytes: &[u8]) -> Result<usize, NotWritten>
    ensures { Outcome (nat_le (128 * count) (length bytes.now)) (event_bytes (block (entries 128 data_from count bytes.now))) out.old out.new result }
{
    let size = Data::size() * usize::from(count);
    if bytes.len() < size {
        return Err(NotWritten::BadRow);
    }
    if out.len() < 2 + size {
        return Err(NotWritten::Short);
    }
    out[0] = u8::from(EventKind::Block);
    out[1] = count;
    out[2..2 + size].copy_from_slice(&bytes[0..size]);
    Ok(2 + size)
}

fn write_resend(out: &mut [u8]) -> Result<usize, NotWritten>
    ensures { Outcome true (event_bytes resend) out.old out.new result }
{
    if out.len() < 1 {
        return Err(NotWritten::Short);
    }
    out[0] = u8::from(EventKind::Resend);
    Ok(1)
}
