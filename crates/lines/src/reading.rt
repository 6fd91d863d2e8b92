// Requests and limits read from lines.
ghost use Rattle.std.specs.Prelude.{◌≡◌, ℕ, Bool, IfOk, IfSome};
ghost use Rattle.protocol.specs.Meaning.{limits_of};
ghost use Rattle.protocol.specs.Text.{limits_text};
ghost use Rattle.text.specs.Meaning.{request_of};
ghost use Rattle.text.specs.Text.{request_text};

use crate::errors::{Expected, LineError};
use crate::parsing::{parse_data, parse_duty, parse_share};
use crate::words::Words;
use protocol::Limits;
use std::alloc::Global;
use std::fmt::Display;
use text::Request;
use wire::Data;

// The request that a line is: a line is taken only as it is printed.
// Stays: a function and no `FromStr`, since the type is another crate's and reading it needs the heap.
pub fn read_request(heap: Global, line: &str) -> Result<Request, LineError>
    ensures { IfOk result (λ q. line.now ≡ request_text (request_of q)) }
{
    as_printed(heap, parse(heap, line)?, line)
}

// The limits that a first line is: a line is taken only as it is printed.
// Stays: a function and no `FromStr`, since the type is another crate's and its error's text needs the heap.
#[tactic(auto, unfolding(protocol::specs::Text::limits_text))]
pub fn read_limits(heap: Global, line: &str) -> Result<Limits, LineError>
    ensures { IfOk result (λ l. (can : ℕ → Bool) → line.now ≡ limits_text (limits_of can l)) }
{
    as_printed(heap, parse_limits(line)?, line)
}

// A value, if a line is just what is printed of it.
fn as_printed<T: Display + Drop>(heap: Global, value: T, line: &str) -> Result<T, LineError>
    ensures { IfOk result (λ v. IfSome (T.output v) (λ text. line.now ≡ text)) }
{
    let text = format!(in heap; "{value}")?;
    if text.as_str() != line {
        return Err(LineError::Spelling(text));
    }
    Ok(value)
}

// What a line may be taken for.
fn parse(heap: Global, line: &str) -> Result<Request, LineError> {
    let mut words = Words::of(line, Expected::Word);
    let word = words.word();
    let rest = words.rest;
    Ok(match word {
        "duty" => Request::OnDuty(parse_duty(rest)?),
        "decided" => parse_decision(rest, Request::Decided)?,
        "share" => Request::ShareCame(parse_share(rest)?),
        "block" => Request::Block(Vec::new(heap)),
        "block:" => Request::Block(parse_listed(heap, rest)?),
        "resend" => Request::Resend,
        "may" => parse_decision(rest, Request::May)?,
        "past" => Request::Past,
        "bytes" => Request::Bytes(parse_bytes(heap, rest)?),
        _ => return Err(LineError::Expected(Expected::Word)),
    })
}

// A request of a slot and data.
fn parse_decision<F: FnOnce(u64, Data) -> Request>(
    text: &str,
    request: F,
) -> Result<Request, Expected>
    requires { F.IsAlwaysCallable request }
{
    let (slot, what) = text.split_once(": ").ok_or(Expected::Decision)?;
    Ok(request(slot.parse::<u64>()?, parse_data(what)?))
}

// The data that a block lists.
fn parse_listed(heap: Global, text: &str) -> Result<Vec<Data>, LineError> {
    let mut listed = Vec::new(heap);
    for part in text.split(", ") {
        listed.push(parse_data(part)?)?;
    }
    Ok(listed)
}

// What a hexadecimal digit is worth.
// Stays: a match, since the library's `to_digit` takes capitals too, which a line may not have.
fn digit_value(digit: u8) -> Result<u8, Expected> {
    match digit {
        b'0'..=b'9' => Ok(digit - b'0'),
        b'a'..=b'f' => Ok(digit - b'a' + 10),
        _ => Err(Expected::Bytes),
    }
}

// A byte of two digits.
fn parse_byte(pair: &[u8]) -> Result<u8, Expected> {
    let [high, low] = pair else {
        return Err(Expected::Bytes);
    };
    Ok((digit_value(*high)? << 4) | digit_value(*low)?)
}

// Bytes of two digits each.
fn parse_bytes(heap: Global, text: &str) -> Result<Vec<u8>, LineError> {
    let mut bytes = Vec::new(heap);
    for pair in text.as_bytes().chunks(2) {
        bytes.push(parse_byte(pair)?)?;
    }
    Ok(bytes)
}

// What a first line may be taken for.
fn parse_limits(line: &str) -> Result<Limits, Expected> {
    let mut words = Words::of(line, Expected::Limits);
    let clients = words.named_number()?;
    let me = words.named_number()?;
    let kept = words.named_number()?;
    let waiting = words.named_number()?;
    Ok(Limits {
        clients: u16::try_from(clients)?,
        me: u16::try_from(me)?,
        kept: u16::try_from(kept)?,
        waiting: u8::try_from(waiting)?,
    })
}
