// Requests and limits.
use lines::{LineError, event_bytes, read_limits, read_request};
use std::alloc::{AllocError, Global};
use std::test::Fail;
use text::{Request, may_text};

// The bytes of what a line asks, as a line, or `none` for a question.
fn bytes_line(heap: Global, line: &str) -> Result<String, LineError> {
    let request = read_request(heap, line)?;
    match event_bytes(heap, &request)? {
        Some(bytes) => {
            let asked = Request::Bytes(bytes);
            Ok(format!(in heap; "{asked}")?)
        }
        None => Ok(format!(in heap; "none")?),
    }
}

// What is wrong with a line.
fn trouble(heap: Global, line: &str) -> Result<String, AllocError> {
    match read_request(heap, line) {
        Ok(_) => format!(in heap; "nothing"),
        Err(error) => format!(in heap; "{error}"),
    }
}

// What is wrong with a line of limits.
fn limits_trouble(heap: Global, line: &str) -> Result<String, AllocError> {
    match read_limits(heap, line) {
        Ok(_) => format!(in heap; "nothing"),
        Err(error) => format!(in heap; "{error}"),
    }
}

#[test]
fn every_form_is_read(rt: HostRuntime) -> Result<(), Fail> {
    let heap = rt.alloc();
    let table = [
        (
            "duty 5 seat 1",
            "bytes 00050000000000000000000000000000000100000000000000",
        ),
        (
            "duty 5 seat 1 committee 3",
            "bytes 00050000000000000003000000000000000100000000000000",
        ),
        (
            "duty 18446744073709551615 seat 0 committee 18446744073709551615",
            "bytes 00ffffffffffffffffffffffffffffffff0000000000000000",
        ),
        (
            "decided 7: 7 8 0 2",
            "bytes 0107000000000000000700000000000000000000000000000008000000000000000000000000000000000000000000000000000000000000000000000000000000000000000000000000000000000000000000000000000000000000000000000002000000000000000000000000000000000000000000000000000000000000000000000000000000",
        ),
        (
            "decided 7: 7 8 0 2 1 0 0",
            "bytes 0107000000000000000700000000000000010000000000000008000000000000000000000000000000000000000000000000000000000000000000000000000000000000000000000000000000000000000000000000000000000000000000000002000000000000000000000000000000000000000000000000000000000000000000000000000000",
        ),
        (
            "decided 7: 7 8 0 2 0 4 0",
            "bytes 0107000000000000000700000000000000000000000000000008000000000000000000000000000000000000000000000000000000000000000000000000000000040000000000000000000000000000000000000000000000000000000000000002000000000000000000000000000000000000000000000000000000000000000000000000000000",
        ),
        (
            "decided 7: 7 8 0 2 0 0 6",
            "bytes 0107000000000000000700000000000000000000000000000008000000000000000000000000000000000000000000000000000000000000000000000000000000000000000000000000000000000000000000000000000000000000000000000002000000000000000600000000000000000000000000000000000000000000000000000000000000",
        ),
        (
            "share 0 seat 1: 5 9 0 1",
            "bytes 020005000000000000000000000000000000090000000000000000000000000000000000000000000000000000000000000000000000000000000000000000000000000000000000000000000000000000000000000000000000010000000000000000000000000000000000000000000000000000000000000000000000000000000100000000000000",
        ),
        (
            "share 255 seat 1: 5 9 0 1 2 3 4",
            "bytes 02ff05000000000000000200000000000000090000000000000000000000000000000000000000000000000000000000000000000000000000000300000000000000000000000000000000000000000000000000000000000000010000000000000004000000000000000000000000000000000000000000000000000000000000000100000000000000",
        ),
        (
            "block: 7 8 0 2, 10 3 2 4",
            "bytes 030207000000000000000000000000000000080000000000000000000000000000000000000000000000000000000000000000000000000000000000000000000000000000000000000000000000000000000000000000000000020000000000000000000000000000000000000000000000000000000000000000000000000000000a00000000000000000000000000000003000000000000000000000000000000000000000000000000000000000000000200000000000000000000000000000000000000000000000000000000000000000000000000000004000000000000000000000000000000000000000000000000000000000000000000000000000000",
        ),
        (
            "block: 7 8 0 2 1 0 0",
            "bytes 03010700000000000000010000000000000008000000000000000000000000000000000000000000000000000000000000000000000000000000000000000000000000000000000000000000000000000000000000000000000002000000000000000000000000000000000000000000000000000000000000000000000000000000",
        ),
        ("block", "bytes 0300"),
        ("resend", "bytes 04"),
        ("bytes 00ff", "bytes 00ff"),
        ("bytes 0123456789abcdef", "bytes 0123456789abcdef"),
        (
            "decided 0: 0 0 0 0",
            "bytes 0100000000000000000000000000000000000000000000000000000000000000000000000000000000000000000000000000000000000000000000000000000000000000000000000000000000000000000000000000000000000000000000000000000000000000000000000000000000000000000000000000000000000000000000000000000000",
        ),
        (
            "decided 0: 0 10 0 0",
            "bytes 010000000000000000000000000000000000000000000000000a000000000000000000000000000000000000000000000000000000000000000000000000000000000000000000000000000000000000000000000000000000000000000000000000000000000000000000000000000000000000000000000000000000000000000000000000000000",
        ),
        (
            "decided 0: 0 18446744073709551616 0 0",
            "bytes 0100000000000000000000000000000000000000000000000000000000000000000100000000000000000000000000000000000000000000000000000000000000000000000000000000000000000000000000000000000000000000000000000000000000000000000000000000000000000000000000000000000000000000000000000000000000",
        ),
        (
            "decided 0: 0 115792089237316195423570985008687907853269984665640564039457584007913129639935 0 0 0 115792089237316195423570985008687907853269984665640564039457584007913129639935 57896044618658097711785492504343953926634992332820282019728792003956564819968",
            "bytes 01000000000000000000000000000000000000000000000000ffffffffffffffffffffffffffffffffffffffffffffffffffffffffffffffff0000000000000000ffffffffffffffffffffffffffffffffffffffffffffffffffffffffffffffff00000000000000000000000000000000000000000000000000000000000000000000000000000080",
        ),
        ("bytes", "bytes"),
        ("may 7: 7 8 0 2", "none"),
        ("past", "none"),
    ];
    for (line, expected) in table {
        let bytes = bytes_line(heap, line)?;
        assert_eq!(rt; bytes.as_str(), expected, "{}", line);
    }
    Ok(())
}

#[test]
fn bad_lines_say_what_was_expected(rt: HostRuntime) -> Result<(), Fail> {
    let heap = rt.alloc();
    let table = [
        (
            "",
            "expected `duty`, `decided`, `share`, `block`, `resend`, `may`, `past` or `bytes`",
        ),
        (
            "dutys 5 seat 1",
            "expected `duty`, `decided`, `share`, `block`, `resend`, `may`, `past` or `bytes`",
        ),
        (
            "Past",
            "expected `duty`, `decided`, `share`, `block`, `resend`, `may`, `past` or `bytes`",
        ),
        (
            "past ",
            "expected `past`: single spaces, no leading zeros, and nothing that is left out when it is 0",
        ),
        (
            " resend",
            "expected `duty`, `decided`, `share`, `block`, `resend`, `may`, `past` or `bytes`",
        ),
        (
            "duty",
            "expected a duty: write `duty SLOT seat SEAT`, and ` committee COMMITTEE` unless that is 0",
        ),
        (
            "duty 5 seats 1",
            "expected `duty 5 seat 1`: single spaces, no leading zeros, and nothing that is left out when it is 0",
        ),
        (
            "duty 5",
            "expected a duty: write `duty SLOT seat SEAT`, and ` committee COMMITTEE` unless that is 0",
        ),
        (
            "duty 18446744073709551616 seat 1",
            "expected a number in decimal that fits: at most 18446744073709551615, and at most 65535 or 255 for limits",
        ),
        (
            "duty five seat 1",
            "expected a number in decimal that fits: at most 18446744073709551615, and at most 65535 or 255 for limits",
        ),
        (
            "duty  5 seat 1",
            "expected a number in decimal that fits: at most 18446744073709551615, and at most 65535 or 255 for limits",
        ),
        (
            "duty 5 seat 1 committee ",
            "expected a duty: write `duty SLOT seat SEAT`, and ` committee COMMITTEE` unless that is 0",
        ),
        (
            "duty 5 seat 1 ",
            "expected `duty 5 seat 1`: single spaces, no leading zeros, and nothing that is left out when it is 0",
        ),
        (
            "duty 05 seat 1",
            "expected `duty 5 seat 1`: single spaces, no leading zeros, and nothing that is left out when it is 0",
        ),
        (
            "duty +5 seat 1",
            "expected `duty 5 seat 1`: single spaces, no leading zeros, and nothing that is left out when it is 0",
        ),
        (
            "duty 5 seat 1 committee 0",
            "expected `duty 5 seat 1`: single spaces, no leading zeros, and nothing that is left out when it is 0",
        ),
        ("decided 7", "expected a slot and data: write `SLOT: DATA`"),
        ("may", "expected a slot and data: write `SLOT: DATA`"),
        (
            "decided 7:7 8 0 2",
            "expected a slot and data: write `SLOT: DATA`",
        ),
        (
            "may 7: 7 8 0",
            "expected data: write `SLOT BLOCK SOURCE TARGET`, and ` COMMITTEE SOURCE-ROOT TARGET-ROOT` unless all three are 0",
        ),
        (
            "may 7: 7 8 0 2 1",
            "expected `may 7: 7 8 0 2 1 0 0`: single spaces, no leading zeros, and nothing that is left out when it is 0",
        ),
        (
            "may 7: 7 8 0 2 1 0",
            "expected `may 7: 7 8 0 2 1 0 0`: single spaces, no leading zeros, and nothing that is left out when it is 0",
        ),
        (
            "may 7: 7 8 0 2 0 0 0",
            "expected `may 7: 7 8 0 2`: single spaces, no leading zeros, and nothing that is left out when it is 0",
        ),
        (
            "may 7: 7 08 0 2",
            "expected `may 7: 7 8 0 2`: single spaces, no leading zeros, and nothing that is left out when it is 0",
        ),
        (
            "may 7: 7 115792089237316195423570985008687907853269984665640564039457584007913129639936 0 2",
            "expected a root: a number in decimal below 2^256",
        ),
        (
            "may 7: 7 -8 0 2",
            "expected a root: a number in decimal below 2^256",
        ),
        (
            "may 7: 7 8 0 2 1 0 0 0",
            "expected a root: a number in decimal below 2^256",
        ),
        (
            "may 7: 7  0 2",
            "expected `may 7: 7 0 0 2`: single spaces, no leading zeros, and nothing that is left out when it is 0",
        ),
        (
            "share",
            "expected a share: write `share WHO seat SEAT: DATA`",
        ),
        (
            "share 0 seat 1 5 9 0 1",
            "expected a share: write `share WHO seat SEAT: DATA`",
        ),
        (
            "share 256 seat 1: 5 9 0 1",
            "expected a client: a number up to 255",
        ),
        (
            "share 00 seat 1: 5 9 0 1",
            "expected `share 0 seat 1: 5 9 0 1`: single spaces, no leading zeros, and nothing that is left out when it is 0",
        ),
        (
            "block:",
            "expected data: write `SLOT BLOCK SOURCE TARGET`, and ` COMMITTEE SOURCE-ROOT TARGET-ROOT` unless all three are 0",
        ),
        (
            "block: ",
            "expected data: write `SLOT BLOCK SOURCE TARGET`, and ` COMMITTEE SOURCE-ROOT TARGET-ROOT` unless all three are 0",
        ),
        (
            "block: 7 8 0 2,10 3 2 4",
            "expected a number in decimal that fits: at most 18446744073709551615, and at most 65535 or 255 for limits",
        ),
        (
            "block: 7 8 0 2, ",
            "expected data: write `SLOT BLOCK SOURCE TARGET`, and ` COMMITTEE SOURCE-ROOT TARGET-ROOT` unless all three are 0",
        ),
        (
            "bytes 0",
            "expected bytes: two digits each, of 0 to 9 and a to f",
        ),
        (
            "bytes 0F",
            "expected bytes: two digits each, of 0 to 9 and a to f",
        ),
        (
            "bytes 0g",
            "expected bytes: two digits each, of 0 to 9 and a to f",
        ),
        (
            "bytes ",
            "expected `bytes`: single spaces, no leading zeros, and nothing that is left out when it is 0",
        ),
        (
            "resend now",
            "expected `resend`: single spaces, no leading zeros, and nothing that is left out when it is 0",
        ),
    ];
    for (line, expected) in table {
        let text = trouble(heap, line)?;
        assert_eq!(rt; text.as_str(), expected, "{}", line);
    }
    Ok(())
}

// What is wrong with the bytes of a line.
fn bytes_trouble(heap: Global, line: &str) -> Result<String, AllocError> {
    match bytes_line(heap, line) {
        Ok(_) => format!(in heap; "nothing"),
        Err(error) => format!(in heap; "{error}"),
    }
}

#[test]
fn a_block_lists_at_most_255(rt: HostRuntime) -> Result<(), Fail> {
    let heap = rt.alloc();
    let mut line = String::from_str(heap, "block: 7 8 0 2")?;
    for _ in 1..255 {
        line.push_str(", 7 8 0 2")?;
    }
    let text = bytes_trouble(heap, line.as_str())?;
    assert_eq!(rt; text.as_str(), "nothing");
    line.push_str(", 7 8 0 2")?;
    let text = bytes_trouble(heap, line.as_str())?;
    assert_eq!(rt; text.as_str(), "expected at most 255 data in a block");
    Ok(())
}

#[test]
fn limits_are_read(rt: HostRuntime) -> Result<(), Fail> {
    let heap = rt.alloc();
    for line in [
        "clients 4 me 2 kept 2 waiting 3",
        "clients 0 me 0 kept 0 waiting 0",
        "clients 65535 me 65535 kept 65535 waiting 255",
    ] {
        let limits = read_limits(heap, line)?;
        let text = format!(in heap; "{limits}")?;
        assert_eq!(rt; text.as_str(), line);
    }
    let limits = read_limits(heap, "clients 4 me 2 kept 5 waiting 3")?;
    assert!(rt; limits.clients == 4 && limits.me == 2 && limits.kept == 5 && limits.waiting == 3);
    Ok(())
}

#[test]
fn bad_limits_say_what_was_expected(rt: HostRuntime) -> Result<(), Fail> {
    let heap = rt.alloc();
    let table = [
        (
            "",
            "expected limits: write `clients N me I kept K waiting W`",
        ),
        (
            "clients 4",
            "expected limits: write `clients N me I kept K waiting W`",
        ),
        (
            "clients 4 me 2 kept 2",
            "expected limits: write `clients N me I kept K waiting W`",
        ),
        (
            "client 4 me 2 kept 2 waiting 3",
            "expected `clients 4 me 2 kept 2 waiting 3`: single spaces, no leading zeros, and nothing that is left out when it is 0",
        ),
        (
            "clients 65536 me 2 kept 2 waiting 3",
            "expected a number in decimal that fits: at most 18446744073709551615, and at most 65535 or 255 for limits",
        ),
        (
            "clients 4 me 2 kept 2 waiting 256",
            "expected a number in decimal that fits: at most 18446744073709551615, and at most 65535 or 255 for limits",
        ),
        (
            "clients 4 me 2 kept 2 waiting 3 ",
            "expected `clients 4 me 2 kept 2 waiting 3`: single spaces, no leading zeros, and nothing that is left out when it is 0",
        ),
        (
            "clients 04 me 2 kept 2 waiting 3",
            "expected `clients 4 me 2 kept 2 waiting 3`: single spaces, no leading zeros, and nothing that is left out when it is 0",
        ),
    ];
    for (line, expected) in table {
        let text = limits_trouble(heap, line)?;
        assert_eq!(rt; text.as_str(), expected, "{}", line);
    }
    Ok(())
}

#[test]
fn whether_data_may_be_decided(rt: HostRuntime) {
    assert_eq!(rt; may_text(true), "yes");
    assert_eq!(rt; may_text(false), "no");
}
