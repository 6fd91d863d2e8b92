// Vectors: each byte stands where the layout of events and answers has it, the low byte of a number first.
use events::{
    Answer, Deeds, Event, NotWritten, Row, read_answer, read_event, write_block, write_done,
    write_event, write_refused,
};
use std::process::Abort;
use std::test::Fail;
use wire::{Data, Duty, Root, Share};

// Data whose 128 bytes count up from 1: slot, committee, block, source epoch, source root, target epoch, target root.
const DATA: [u8; 128] = [
    1, 2, 3, 4, 5, 6, 7, 8, 9, 10, 11, 12, 13, 14, 15, 16, 17, 18, 19, 20, 21, 22, 23, 24, 25, 26,
    27, 28, 29, 30, 31, 32, 33, 34, 35, 36, 37, 38, 39, 40, 41, 42, 43, 44, 45, 46, 47, 48, 49, 50,
    51, 52, 53, 54, 55, 56, 57, 58, 59, 60, 61, 62, 63, 64, 65, 66, 67, 68, 69, 70, 71, 72, 73, 74,
    75, 76, 77, 78, 79, 80, 81, 82, 83, 84, 85, 86, 87, 88, 89, 90, 91, 92, 93, 94, 95, 96, 97, 98,
    99, 100, 101, 102, 103, 104, 105, 106, 107, 108, 109, 110, 111, 112, 113, 114, 115, 116, 117,
    118, 119, 120, 121, 122, 123, 124, 125, 126, 127, 128,
];

fn data() -> Data {
    Data {
        slot: 0x0807_0605_0403_0201,
        committee: 0x100f_0e0d_0c0b_0a09,
        block: Root {
            first: 0x1817_1615_1413_1211,
            second: 0x201f_1e1d_1c1b_1a19,
            third: 0x2827_2625_2423_2221,
            fourth: 0x302f_2e2d_2c2b_2a29,
        },
        source: 0x3837_3635_3433_3231,
        source_root: Root {
            first: 0x403f_3e3d_3c3b_3a39,
            second: 0x4847_4645_4443_4241,
            third: 0x504f_4e4d_4c4b_4a49,
            fourth: 0x5857_5655_5453_5251,
        },
        target: 0x605f_5e5d_5c5b_5a59,
        target_root: Root {
            first: 0x6867_6665_6463_6261,
            second: 0x706f_6e6d_6c6b_6a69,
            third: 0x7877_7675_7473_7271,
            fourth: 0x807f_7e7d_7c7b_7a79,
        },
    }
}

// Number 0, slot 5, committee 258, seat 2 ^ 56.
fn duty_bytes() -> [u8; 25] {
    let mut bytes = [0u8; 25];
    bytes[1] = 5;
    bytes[9] = 2;
    bytes[10] = 1;
    bytes[24] = 1;
    bytes
}

fn duty() -> Duty {
    Duty {
        slot: 5,
        committee: 258,
        seat: 0x0100_0000_0000_0000,
    }
}

// Number 2, client 200, the data, seat 65279, and one byte too many.
fn share_bytes() -> [u8; 139] {
    let mut bytes = [0u8; 139];
    bytes[0] = 2;
    bytes[1] = 200;
    bytes[2..130].copy_from_slice(&DATA);
    bytes[130] = 255;
    bytes[131] = 254;
    bytes
}

fn share() -> Share {
    Share {
        who: 200,
        what: data(),
        seat: 65279,
    }
}

// Number 1, slot 7, the data.
fn decided_bytes() -> [u8; 137] {
    let mut bytes = [0u8; 137];
    bytes[0] = 1;
    bytes[1] = 7;
    bytes[9..137].copy_from_slice(&DATA);
    bytes
}

// Number 3, one, the data.
fn block_bytes() -> [u8; 130] {
    let mut bytes = [0u8; 130];
    bytes[0] = 3;
    bytes[1] = 1;
    bytes[2..130].copy_from_slice(&DATA);
    bytes
}

fn refused_at(bytes: &[u8], place: u64) -> bool {
    match read_event(bytes) {
        Ok(_) => false,
        Err(garbled) => garbled.place == place,
    }
}

#[test]
fn each_kind_is_read(rt: HostRuntime) -> Result<(), Fail> {
    let Ok(Event::OnDuty(y)) = read_event(&duty_bytes()) else {
        return Err(Fail::new("a duty"));
    };
    assert_eq!(rt; y, duty());
    let Ok(Event::Decided(slot, d)) = read_event(&decided_bytes()) else {
        return Err(Fail::new("decided"));
    };
    assert_eq!(rt; slot, 7);
    assert_eq!(rt; d, data());
    let bytes = share_bytes();
    let Ok(Event::ShareCame(s)) = read_event(&bytes[0..138]) else {
        return Err(Fail::new("a share"));
    };
    assert_eq!(rt; s, share());
    let Ok(Event::Resend) = read_event(&[4]) else {
        return Err(Fail::new("resend"));
    };
    Ok(())
}

// Data whose bytes are all 7.
fn sevens() -> Data {
    let number = 0x0707_0707_0707_0707;
    let root = Root {
        first: number,
        second: number,
        third: number,
        fourth: number,
    };
    Data {
        slot: number,
        committee: number,
        block: root,
        source: number,
        source_root: root,
        target: number,
        target_root: root,
    }
}

// A block of so many data, which is none with a byte less and a byte more.
fn reads_block(rt: &impl Abort, count: u8) -> Result<(), Fail> {
    let mut bytes = [7u8; 32643];
    bytes[0] = 3;
    bytes[1] = count;
    let count = usize::from(count);
    let end = 2 + 128 * count;
    assert!(rt; refused_at(&bytes[0..end - 1], (end - 1) as u64));
    assert!(rt; refused_at(&bytes[0..end + 1], end as u64));
    let Ok(Event::Block(row)) = read_event(&bytes[0..end]) else {
        return Err(Fail::new("a block"));
    };
    assert_eq!(rt; row.len(), count);
    assert_eq!(rt; row.get::<Data>(count), None);
    for i in 0..count {
        assert_eq!(rt; row.get::<Data>(i), Some(sevens()));
    }
    Ok(())
}

#[test]
fn blocks_of_each_length(rt: HostRuntime) -> Result<(), Fail> {
    for count in [0, 1, 64, 65, 255] {
        reads_block(&rt, count)?;
    }
    Ok(())
}

#[test]
fn shares_cut_short_or_too_long(rt: HostRuntime) {
    let bytes = share_bytes();
    for n in 0..138 {
        assert!(rt; refused_at(&bytes[0..n], n as u64));
    }
    assert!(rt; refused_at(&bytes, 138));
}

#[test]
fn no_events(rt: HostRuntime) {
    assert!(rt; refused_at(&[], 0));
    assert!(rt; refused_at(&[5], 0));
    assert!(rt; refused_at(&[255, 0, 0], 0));
    assert!(rt; refused_at(&[0], 1));
    assert!(rt; refused_at(&[1, 0, 0], 3));
    assert!(rt; refused_at(&[3], 1));
    assert!(rt; refused_at(&[3, 0, 0], 2));
    assert!(rt; refused_at(&[4, 0], 1));
}

// The event is written as these bytes, with nothing changed behind them, and not into one byte less.
fn writes(rt: &impl Abort, event: &Event, expected: &[u8]) -> Result<(), Fail> {
    let n = expected.len();
    assert!(rt; n >= 1 && n < 139);
    let mut short = [9u8; 138];
    let Err(NotWritten::Short) = write_event(&mut short[0..n - 1], event) else {
        return Err(Fail::new("too short"));
    };
    let mut out = [9u8; 139];
    assert_eq!(rt; write_event(&mut out, event)?, n);
    assert!(rt; &out[0..n] == expected);
    assert_eq!(rt; out[n], 9);
    Ok(())
}

#[test]
fn events_are_written(rt: HostRuntime) -> Result<(), Fail> {
    writes(&rt, &Event::OnDuty(duty()), &duty_bytes())?;
    writes(&rt, &Event::Decided(7, data()), &decided_bytes())?;
    writes(&rt, &Event::ShareCame(share()), &share_bytes()[0..138])?;
    writes(
        &rt,
        &Event::Block(Row {
            count: 1,
            bytes: &DATA,
        }),
        &block_bytes(),
    )?;
    writes(&rt, &Event::Resend, &[4])
}

#[test]
fn blocks_are_written(rt: HostRuntime) -> Result<(), Fail> {
    let mut out = [9u8; 131];
    assert_eq!(rt; write_block(&mut out, &[data()])?, 130);
    assert!(rt; out[0..130] == block_bytes()[0..130]);
    assert_eq!(rt; out[130], 9);
    let cut = Row {
        count: 2,
        bytes: &DATA,
    };
    let Err(NotWritten::BadRow) = write_event(&mut out, &Event::Block(cut)) else {
        return Err(Fail::new("a row cut short"));
    };
    Ok(())
}

#[test]
fn refusals(rt: HostRuntime) -> Result<(), Fail> {
    let mut out = [9u8; 12];
    assert_eq!(rt; write_refused(&mut out, 3, 258)?, 10);
    assert_eq!(rt; out, [0, 3, 2, 1, 0, 0, 0, 0, 0, 0, 9, 9]);
    let Some(Answer::Refused(number, place)) = read_answer(&out[0..10]) else {
        return Err(Fail::new("a refusal"));
    };
    assert_eq!(rt; number, 3);
    assert_eq!(rt; place, 258);
    assert!(rt; read_answer(&out[0..9]).is_none());
    assert!(rt; read_answer(&out[0..11]).is_none());
    Ok(())
}

// The number, and four rows of a share, data, a duty and two slots, each behind its count.
#[test]
fn done_with_each_row(rt: HostRuntime) -> Result<(), Fail> {
    let mut out = [9u8; 311];
    let deeds = Deeds {
        sent: &[share()],
        handed_in: &[data()],
        begun: &[duty()],
        ended: &[7, 258],
    };
    assert_eq!(rt; write_done(&mut out, &deeds)?, 310);
    assert_eq!(rt;
        [out[0], out[1], out[139], out[268], out[293], out[310]],
        [1, 1, 1, 1, 2, 9]
    );
    assert!(rt; out[2..139] == share_bytes()[1..138]);
    assert!(rt; out[140..268] == DATA[0..128]);
    assert!(rt; out[269..293] == duty_bytes()[1..25]);
    assert!(rt; out[294..310] == [7, 0, 0, 0, 0, 0, 0, 0, 2, 1, 0, 0, 0, 0, 0, 0]);
    reads_done(&rt, &out)
}

fn reads_done(rt: &impl Abort, out: &[u8; 311]) -> Result<(), Fail> {
    assert!(rt; read_answer(&out[0..309]).is_none());
    assert!(rt; read_answer(&out[0..311]).is_none());
    let Some(Answer::Done(rows)) = read_answer(&out[0..310]) else {
        return Err(Fail::new("an answer"));
    };
    assert_eq!(rt; rows.sent.get(0), Some(share()));
    assert_eq!(rt; rows.handed_in.get(0), Some(data()));
    assert_eq!(rt; rows.begun.get(0), Some(duty()));
    assert_eq!(rt; rows.ended.len(), 2);
    assert_eq!(rt; rows.ended.get(1), Some(258u64));
    Ok(())
}

#[test]
fn done_is_refused(rt: HostRuntime) -> Result<(), Fail> {
    let mut out = [9u8; 4];
    let Err(NotWritten::Short) = write_done(&mut out, &Deeds::default()) else {
        return Err(Fail::new("too short"));
    };
    let slots = Deeds {
        ended: &[0; 256],
        ..Deeds::default()
    };
    let Err(NotWritten::BadRow) = write_done(&mut out, &slots) else {
        return Err(Fail::new("too many slots"));
    };
    assert_eq!(rt; out, [9, 9, 9, 9]);
    Ok(())
}
