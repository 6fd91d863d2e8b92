// The numbers that stand in front of events and of answers.
ghost use Rattle.std.specs.Prelude.{◌≡◌, ◌≤◌, MatchResult};
ghost use Rattle.events.specs.Kinds.{event_kind, answer_kind};

// The kinds of events.
#[derive(Clone, Copy, PartialEq, Eq, Debug)]
pub enum EventKind {
    Duty = 0,
    Decided = 1,
    Share = 2,
    Block = 3,
    Resend = 4,
}

// The kinds of answers.
#[derive(Clone, Copy, PartialEq, Eq, Debug)]
pub(crate) enum AnswerKind {
    Refused = 0,
    Done = 1,
}

// A number that no kind has.
#[derive(Clone, Copy, PartialEq, Eq, Debug)]
pub struct NoKind;

impl From<EventKind> for u8 {
    ghost from_gives = { λ k n. n ≡ event_kind k };

    fn from(kind: EventKind) -> u8 {
        kind as u8
    }
}

impl TryFrom<u8> for EventKind {
    type Error = NoKind;

    ghost try_from_gives = { λ n r. MatchResult r (λ k. event_kind k ≡ n) (λ _. 5 ≤ n) };

    fn try_from(number: u8) -> Result<EventKind, NoKind> {
        match number {
            0 => Ok(EventKind::Duty),
            1 => Ok(EventKind::Decided),
            2 => Ok(EventKind::Share),
            3 => Ok(EventKind::Block),
            4 => Ok(EventKind::Resend),
            _ => Err(NoKind),
        }
    }
}

impl From<AnswerKind> for u8 {
    ghost from_gives = { λ k n. n ≡ answer_kind k };

    fn from(kind: AnswerKind) -> u8 {
        kind as u8
    }
}

impl TryFrom<u8> for AnswerKind {
    type Error = NoKind;

    ghost try_from_gives = { λ n r. MatchResult r (λ k. answer_kind k ≡ n) (λ _. 2 ≤ n) };

    fn try_from(number: u8) -> Result<AnswerKind, NoKind> {
        match number {
            0 => Ok(AnswerKind::Refused),
            1 => Ok(AnswerKind::Done),
            _ => Err(NoKind),
        }
    }
}
