// Events out of bytes.
ghost use Rattle.std.specs.Prelude.{◌≡◌, ◌<◌, ◌≤◌, true, length, drop, MatchResult};
ghost use Rattle.events.specs.Layout.{exactly, parse, parse_block};
ghost use Rattle.events.specs.Reading.{read_as, EventExact};
ghost use Rattle.protocol.specs.Client as client;
ghost use Rattle.protocol.specs.Client.{resend, garbled};
ghost use Rattle.protocol.specs.Promise.{readable};

use crate::event::{Event, Garbled};
use crate::kind::{EventKind, NoKind};
use crate::row::split_row;
use wire::{Data, Fixed};

impl From<NoKind> for Garbled {
    ghost from_gives = { λ _ g. g.place ≡ 0 };

    fn from(_no_kind: NoKind) -> Garbled {
        Garbled { place: 0 }
    }
}

// Which event some bytes are, or the place where they cease to be one.
pub fn read_event(bytes: &[u8]) -> Result<Event<'_>, Garbled>
    ensures event { read_as result ≡ parse bytes.now }
    ensures carried { readable (read_as result) ≡ true }
    ensures exact { EventExact result }
{
    let (number, _) = bytes.split_first().ok_or(Garbled { place: 0 })?;
    match EventKind::try_from(*number)? {
        EventKind::Duty => Ok(Event::OnDuty(last(bytes, 1)?)),
        EventKind::Decided => {
            let (slot, data) = last(bytes, 1)?;
            Ok(Event::Decided(slot, data))
        }
        EventKind::Share => Ok(Event::ShareCame(last(bytes, 1)?)),
        EventKind::Block => read_block(bytes),
        EventKind::Resend => read_resend(bytes),
    }
}

fn read_block(bytes: &[u8]) -> Result<Event<'_>, Garbled>
    requires { 1 ≤ length bytes.now }
    ensures event { read_as result ≡ parse_block (drop 1 bytes.now) }
    ensures exact { EventExact result }
{
    let split = split_row::<Data>(&bytes[1..]).ok_or(Garbled {
        place: bytes.len() as u64,
    })?;
    end(bytes, bytes.len() - split.rest.len())?;
    Ok(Event::Block(split.row))
}

fn read_resend(bytes: &[u8]) -> Result<Event<'_>, Garbled>
    requires { 1 ≤ length bytes.now }
    ensures { read_as result ≡ exactly 1 0 (drop 1 bytes.now) resend }
{
    end(bytes, 1)?;
    Ok(Event::Resend)
}

// The value from a place on, if the bytes end where it ends.
fn last<T: Fixed + Drop>(bytes: &[u8], at: usize) -> Result<T, Garbled>
    requires { at ≤ length bytes.now }
    ensures { MatchResult result
        (λ x. T.Fixed.reads (drop at bytes.now) x × ((e : client.Event) → exactly at T.Fixed.width (drop at bytes.now) e ≡ e))
        (λ g. (e : client.Event) → exactly at T.Fixed.width (drop at bytes.now) e ≡ garbled g.place) }
{
    let value = T::read(&bytes[at..]).ok_or(Garbled {
        place: bytes.len() as u64,
    })?;
    end(bytes, at + T::size())?;
    Ok(value)
}

// The bytes end at this place: what stands behind it begins no event.
fn end(bytes: &[u8], place: usize) -> Result<(), Garbled>
    ensures { MatchResult result (λ _. length bytes.now ≤ place) (λ g. (place < length bytes.now) × (g.place ≡ place)) }
{
    if bytes.len() > place {
        return Err(Garbled {
            place: place as u64,
        });
    }
    Ok(())
}
