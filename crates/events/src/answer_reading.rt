// Answers out of bytes.
ghost use Rattle.std.specs.Prelude.{◌≡◌};
ghost use Rattle.events.specs.Layout.{parse_answer, parse_refused, parse_done};
ghost use Rattle.events.specs.Reading.{answer_read, AnswerExact};

use crate::answer::{Answer, Rows};
use crate::kind::AnswerKind;
use crate::row::split_row;
use wire::{Data, Duty, Fixed, Share};

// Which answer some bytes are, if they are one.
pub fn read_answer(bytes: &[u8]) -> Option<Answer<'_>>
    ensures answer { answer_read result ≡ parse_answer bytes.now }
    ensures exact { AnswerExact result }
{
    let (number, rest) = bytes.split_first()?;
    match AnswerKind::try_from(*number).ok()? {
        AnswerKind::Refused => read_refused(rest),
        AnswerKind::Done => read_done(rest),
    }
}

fn read_refused(bytes: &[u8]) -> Option<Answer<'_>>
    ensures { answer_read result ≡ parse_refused bytes.now }
{
    let (number, rest) = bytes.split_first()?;
    let place = u64::read(rest)?;
    (rest.len() == u64::size()).then_some(Answer::Refused(*number, place))
}

fn read_done(bytes: &[u8]) -> Option<Answer<'_>>
    ensures answer { answer_read result ≡ parse_done bytes.now }
    ensures exact { AnswerExact result }
{
    let sent = split_row::<Share>(bytes)?;
    let handed_in = split_row::<Data>(sent.rest)?;
    let begun = split_row::<Duty>(handed_in.rest)?;
    let ended = split_row::<u64>(begun.rest)?;
    let rows = Rows {
        sent: sent.row,
        handed_in: handed_in.row,
        begun: begun.row,
        ended: ended.row,
    };
    ended.rest.is_empty().then_some(Answer::Done(rows))
}
