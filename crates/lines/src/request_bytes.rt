// The bytes of requests.
// Stays: put into vectors here and not by the functions of `events` over slices: those refuse where there is no room, and what was tried had an error for that case, which can't come.
ghost use Rattle.std.specs.Prelude.{◌≡◌, [], ◌∷◌, ◌++◌, map, IfOk, vec_items, OnOk};
ghost use Rattle.std.specs.Option.{option_map};
ghost use Rattle.protocol.specs.Client.{block};
ghost use Rattle.wire.specs.Meaning.{data_of};
ghost use Rattle.events.specs.Kinds.{event_kind};
ghost use Rattle.events.specs.Layout.{event_bytes};
ghost use Rattle.lines.specs.Bytes.{asked_bytes};
ghost use Rattle.text.specs.Meaning.{request_of};

use crate::errors::{Expected, LineError};
use events::EventKind;
use std::alloc::{AllocError, Global};
use text::Request;
use wire::{Data, Fixed};

// Appends the bytes of a value.
fn append<T: Fixed>(bytes: &mut Vec<u8>, value: &T) -> Result<(), AllocError>
    ensures { OnOk result (bytes.new.items ≡ bytes.old.items ++ T.Fixed.coded value.now) }
{
    let end = bytes.len();
    bytes.resize(end + T::size(), 0)?;
    value.put(bytes.as_mut_slice(), end);
    Ok(())
}

// An event's number, before what follows it.
fn numbered(heap: Global, kind: EventKind) -> Result<Vec<u8>, AllocError>
    ensures { IfOk result (λ v. v.items ≡ event_kind kind ∷ []) }
{
    let mut bytes = Vec::new(heap);
    bytes.push(u8::from(kind))?;
    Ok(bytes)
}

// An event's number and one value.
fn value_bytes<T: Fixed>(heap: Global, kind: EventKind, value: &T) -> Result<Vec<u8>, AllocError>
    ensures { IfOk result (λ v. v.items ≡ event_kind kind ∷ T.Fixed.coded value.now) }
{
    let mut bytes = numbered(heap, kind)?;
    append(&mut bytes, value)?;
    Ok(bytes)
}

// A block's bytes: its count, and the data that it lists.
#[tactic(auto, unfolding(events::specs::Layout::all_bytes, events::specs::Layout::event_bytes))]
fn block_bytes(heap: Global, listed: &[Data]) -> Result<Vec<u8>, LineError>
    ensures { IfOk result (λ v. v.items ≡ event_bytes (block (map data_of listed.now))) }
{
    let count = u8::try_from(listed.len()).map_err(|_| Expected::Fewer)?;
    let mut bytes = numbered(heap, EventKind::Block)?;
    bytes.push(count)?;
    for what in listed {
        append(&mut bytes, what)?;
    }
    Ok(bytes)
}

// The bytes that a client is handed for a request, if it is no question. A block of more than 255 data has none.
#[tactic(auto, unfolding(crate::specs::Bytes::asked_bytes, text::specs::Meaning::request_of, events::specs::Layout::event_bytes))]
pub fn event_bytes(heap: Global, request: &Request) -> Result<Option<Vec<u8>>, LineError>
    ensures { IfOk result (λ o. option_map vec_items o ≡ asked_bytes (request_of request.now)) }
{
    Ok(Some(match request {
        Request::OnDuty(duty) => value_bytes(heap, EventKind::Duty, duty)?,
        Request::Decided(slot, what) => value_bytes(heap, EventKind::Decided, &(*slot, *what))?,
        Request::ShareCame(share) => value_bytes(heap, EventKind::Share, share)?,
        Request::Block(listed) => block_bytes(heap, listed.as_slice())?,
        Request::Resend => numbered(heap, EventKind::Resend)?,
        Request::May(..) | Request::Past => return Ok(None),
        Request::Bytes(bytes) => Vec::from_slice(heap, bytes.as_slice())?,
    }))
}
