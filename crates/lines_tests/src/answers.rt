// Answers and the past.
use events::{Answer, Deeds, NotWritten, Row, Rows, read_answer, write_done};
use std::test::Fail;
use text::{answer_text, past_text};
use wire::{Data, Duty, Entry, Root, Share};

const NONE: Row = Row {
    count: 0,
    bytes: &[],
};

fn share() -> Share {
    Share {
        who: 2,
        what: Data {
            slot: 5,
            committee: 0,
            block: Root {
                first: 9,
                ..Root::ZERO
            },
            source: 0,
            source_root: Root::ZERO,
            target: 1,
            target_root: Root::ZERO,
        },
        seat: 1,
    }
}

#[test]
fn refusals_and_nothing(rt: HostRuntime) -> Result<(), Fail> {
    let heap = rt.alloc();
    let text = answer_text(heap, &Answer::Refused(3, 0))?;
    assert_eq!(rt; text.as_str(), "refused 3 at 0");
    let text = answer_text(heap, &Answer::Refused(1, 18446744073709551615))?;
    assert_eq!(rt; text.as_str(), "refused 1 at 18446744073709551615");
    let nothing = Rows {
        sent: NONE,
        handed_in: NONE,
        begun: NONE,
        ended: NONE,
    };
    let text = answer_text(heap, &Answer::Done(nothing))?;
    assert_eq!(rt; text.as_str(), "nothing");
    Ok(())
}

// The bytes of an answer with an entry in each row but the third, which has two.
fn everything() -> Result<[u8; 326], NotWritten> {
    let first = Duty {
        slot: 7,
        committee: 0,
        seat: 1,
    };
    let second = Duty {
        slot: 9,
        committee: 3,
        seat: 0,
    };
    let mut bytes = [0u8; 326];
    let deeds = Deeds {
        sent: &[share()],
        handed_in: &[share().what],
        begun: &[first, second],
        ended: &[7],
    };
    write_done(&mut bytes, &deeds)?;
    Ok(bytes)
}

#[test]
fn what_is_done_stands_in_the_order_of_the_rows(rt: HostRuntime) -> Result<(), Fail> {
    let heap = rt.alloc();
    let bytes = everything()?;
    let answer = read_answer(&bytes).ok_or("no answer")?;
    let text = answer_text(heap, &answer)?;
    assert_eq!(rt;
        text.as_str(),
        "sends 2 seat 1: 5 9 0 1; hands in 5 9 0 1; begins 7 seat 1; begins 9 seat 0 committee 3; ends 7"
    );
    let cut = Row {
        count: 2,
        bytes: &bytes[318..],
    };
    let rows = Rows {
        sent: cut,
        handed_in: cut,
        begun: cut,
        ended: cut,
    };
    assert!(rt; answer_text(heap, &Answer::Done(rows)).is_err());
    Ok(())
}

#[test]
fn the_past_goes_from_the_least_target_on(rt: HostRuntime) -> Result<(), Fail> {
    let heap = rt.alloc();
    let text = past_text(heap, &[])?;
    assert_eq!(rt; text.as_str(), "past");
    let past = [
        Entry {
            source: 2,
            target: 4,
        },
        Entry {
            source: 1,
            target: 3,
        },
    ];
    let text = past_text(heap, &past)?;
    assert_eq!(rt; text.as_str(), "past 1 3, 2 4");
    Ok(())
}
