// What a line asks of a client, and as text.
ghost use Rattle.std.specs.Prelude.{◌≡◌, ◌*◌, ◌<◌, ◌≤◌, false, map, length, take, Some};
ghost use Rattle.std.specs.Fmt.{DisplaysOnOk, digit_glyph};
ghost use Rattle.std.specs.List.{flat_map};
ghost use Rattle.wire.specs.Meaning.{data_of};
ghost use Rattle.text.specs.Text.{block_text, bytes_text, hex, request_text, may_text};
ghost use Rattle.text.specs.Meaning.{request_of};

use std::fmt;
use wire::{Data, Duty, Share};

// An event, or a question, or raw bytes.
#[derive(Drop)]
pub enum Request {
    // A duty to be done.
    OnDuty(Duty),
    // The deciding for a slot has come to data.
    Decided(u64, Data),
    // A share came.
    ShareCame(Share),
    // A block has this data of ours.
    Block(Vec<Data>),
    // The own shares that are kept are to be sent once more.
    Resend,
    // Whether the deciding for a slot may come to data.
    May(u64, Data),
    // What the past is.
    Past,
    // Bytes as they are.
    Bytes(Vec<u8>),
}

// The request as a line.
impl fmt::Display for Request {
    ghost output = { λ q. Some (request_text (request_of q)) };

    #[tactic(auto, unfolding(crate::specs::Meaning::request_of, crate::specs::Text::request_text, crate::specs::Text::event_text))]
    fn fmt<W: fmt::Write>(&self, f: &mut fmt::Formatter<W>) -> fmt::Result {
        match self {
            Request::OnDuty(duty) => write!(f, "duty {duty}"),
            Request::Decided(slot, what) => write!(f, "decided {slot}: {what}"),
            Request::ShareCame(share) => write!(f, "share {share}"),
            Request::Block(listed) => write_block(f, listed.as_slice()),
            Request::Resend => write!(f, "resend"),
            Request::May(slot, what) => write!(f, "may {slot}: {what}"),
            Request::Past => write!(f, "past"),
            Request::Bytes(bytes) => write_bytes(f, bytes.as_slice()),
        }
    }
}

// A block's line.
#[tactic(auto, using(crate::proofs::Listed::block_none))]
fn write_block<W: fmt::Write>(f: &mut fmt::Formatter<W>, listed: &[Data]) -> fmt::Result
    ensures { DisplaysOnOk W.write_str_gives f.old result (Some (block_text (map data_of listed.now))) f.new }
{
    let [first, others @ ..] = listed else {
        return write!(f, "block");
    };
    write!(f, "block: {first}")?;
    for what in others {
        write!(f, ", {what}")?;
    }
    Ok(())
}

// The line of raw bytes.
#[tactic(auto, using(crate::proofs::Listed::bytes_none))]
fn write_bytes<W: fmt::Write>(f: &mut fmt::Formatter<W>, bytes: &[u8]) -> fmt::Result
    ensures { DisplaysOnOk W.write_str_gives f.old result (Some (bytes_text bytes.now)) f.new }
{
    if bytes.is_empty() {
        return write!(f, "bytes");
    }
    write!(f, "bytes ")?;
    let (parts, rest) = bytes.as_chunks();
    write_parts(f, parts)?;
    write_part(f, rest)
}

// Parts in hexadecimal, one after another.
fn write_parts<W: fmt::Write>(f: &mut fmt::Formatter<W>, parts: &[[u8; 32]]) -> fmt::Result
    ensures { DisplaysOnOk W.write_str_gives f.old result (Some (flat_map hex parts.now)) f.new }
{
    for part in parts {
        write_part(f, part)?;
    }
    Ok(())
}

// At most 32 bytes in hexadecimal. Their digits are handed on as one text, since handing on costs more than a digit.
fn write_part<W: fmt::Write>(f: &mut fmt::Formatter<W>, part: &[u8]) -> fmt::Result
    requires { length part.now ≤ 32 }
    ensures { DisplaysOnOk W.write_str_gives f.old result (Some (hex part.now)) f.new }
{
    let mut room = [0u8; 64];
    put_digits(&mut room, part);
    f.write_str(str::from_utf8(&room[..2 * part.len()]).unwrap())
}

// Puts the two digits of each byte at the front of the room.
// Stays: digits by hand, since a hole for each byte, `{byte:02x}`, made a run over raw bytes twice as long.
fn put_digits(room: &mut [u8], bytes: &[u8])
    requires { 2 * length bytes.now ≤ length room.old }
    ensures { take (2 * length bytes.now) room.new ≡ hex bytes.now }
{
    for (place, byte) in bytes.iter().enumerate() {
        let pair = [digit(*byte / 16), digit(*byte % 16)];
        room[2 * place..2 * place + 2].copy_from_slice(&pair);
    }
}

// A digit to the base 16.
fn digit(number: u8) -> u8
    requires { number < 16 }
    ensures { result ≡ digit_glyph false number }
{
    if number < 10 {
        b'0' + number
    } else {
        b'a' - 10 + number
    }
}

// What is answered where it is asked whether data may be decided.
// Stays: a bool has a Display already, which prints other words, and two words need no type of their own.
#[tactic(auto, unfolding(crate::specs::Text::may_text))]
pub fn may_text(may: bool) -> &'static str
    ensures { result.now ≡ may_text may }
{
    if may { "yes" } else { "no" }
}
