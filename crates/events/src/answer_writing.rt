// Answers into bytes.
ghost use Rattle.std.specs.Prelude.{MatchResult};
ghost use Rattle.wire.specs.Fixed.{Written, Unwritten};
ghost use Rattle.events.specs.Layout.{answer_bytes};
ghost use Rattle.events.specs.Writing.{Outcome, all_few, deeds_bytes};
ghost use Rattle.protocol.specs.Client.{refused};

use crate::answer::Deeds;
use crate::kind::AnswerKind;
use crate::not_written::NotWritten;
use crate::row_writing::Few;
use wire::{Fixed, Short};

// Writes a refusal at the front of `out`.
// Stays: a refusal is a number here, since any number can be written; a type of the seven would ask more of callers.
pub fn write_refused(out: &mut [u8], number: u8, place: u64) -> Result<usize, Short>
    ensures { MatchResult result (Written 10 (answer_bytes (refused number place)) out.old out.new) (λ _. Unwritten 10 out.old out.new) }
{
    if out.len() < 10 {
        return Err(Short);
    }
    out[0] = u8::from(AnswerKind::Refused);
    out[1] = number;
    place.put(out, 2);
    Ok(10)
}

// Writes an answer that something was done at the front of `out`, if each row's count is a byte.
pub fn write_done(out: &mut [u8], deeds: &Deeds) -> Result<usize, NotWritten>
    ensures { Outcome (all_few deeds.now) (deeds_bytes deeds.now) out.old out.new result }
{
    let sent = Few::of(deeds.sent).ok_or(NotWritten::BadRow)?;
    let handed_in = Few::of(deeds.handed_in).ok_or(NotWritten::BadRow)?;
    let begun = Few::of(deeds.begun).ok_or(NotWritten::BadRow)?;
    let ended = Few::of(deeds.ended).ok_or(NotWritten::BadRow)?;
    if out.len() < 1 + sent.size() + handed_in.size() + begun.size() + ended.size() {
        return Err(NotWritten::Short);
    }
    out[0] = u8::from(AnswerKind::Done);
    let mut at = sent.put(out, 1);
    at = handed_in.put(out, at);
    at = begun.put(out, at);
    Ok(ended.put(out, at))
}
