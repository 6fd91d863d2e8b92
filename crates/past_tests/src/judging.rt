// What is unsafe for a past, and what is valid for a duty.
use std::process::Abort;
use wire::{Data, Duty, Entry, Root};

// The largest number.
const TOP: u64 = 18446744073709551615;

#[derive(Clone, Copy)]
struct Example {
    entry: Entry,
    is_unsafe: bool,
}

fn judged(source: u64, target: u64, is_unsafe: bool) -> Example {
    Example {
        entry: Entry { source, target },
        is_unsafe,
    }
}

fn holds(rt: &impl Abort, region: &[u64], count: usize, examples: &[Example]) {
    assert!(rt; count <= region.len() / 2);
    let kept = past::pairs(region, count);
    for e in examples {
        assert_eq!(rt; past::is_unsafe(kept, e.entry), e.is_unsafe);
    }
}

#[test]
fn is_unsafe_by_the_rule(rt: HostRuntime) {
    // nothing is kept, whatever the numbers are
    holds(
        &rt,
        &[7, 8],
        0,
        &[
            judged(0, 0, false),
            judged(7, 8, false),
            judged(TOP, TOP, false),
        ],
    );
    // one: at or below its target, below its source, after it
    holds(
        &rt,
        &[5, 10, 4, 11],
        1,
        &[
            judged(5, 10, true),
            judged(6, 9, true),
            judged(4, 11, true),
            judged(5, 11, false),
            judged(10, 11, false),
        ],
    );
    // two, in either order: beside them, around one, within one, with a target that is there
    let two = [
        judged(4, 9, false),
        judged(4, 11, true),
        judged(6, 9, true),
        judged(6, 10, true),
        judged(3, 8, true),
        judged(2, 11, true),
        judged(5, 11, false),
    ];
    holds(&rt, &[5, 10, 3, 8], 2, &two);
    holds(&rt, &[3, 8, 5, 10], 2, &two);
    // the smallest and the largest numbers
    holds(
        &rt,
        &[0, 0],
        1,
        &[
            judged(0, 0, true),
            judged(0, 1, false),
            judged(TOP, TOP, false),
        ],
    );
    holds(
        &rt,
        &[TOP, TOP],
        1,
        &[
            judged(TOP, TOP, true),
            judged(0, TOP, true),
            judged(0, 0, true),
        ],
    );
}

fn attestation(slot: u64, committee: u64, source: u64, target: u64) -> Data {
    let root = Root {
        first: 1,
        second: 2,
        third: 3,
        fourth: 4,
    };
    Data {
        slot,
        committee,
        block: root,
        source,
        source_root: root,
        target,
        target_root: root,
    }
}

#[test]
fn is_valid_for_a_duty(rt: HostRuntime) {
    let duty = Duty {
        slot: 7,
        committee: 2,
        seat: 1,
    };
    let region = [4u64, 5];
    let past = past::pairs(&region, 1);
    assert!(rt; past::is_valid(past, &attestation(7, 2, 5, 6), &duty));
    // another slot, another committee, a source at or after its target, unsafe
    let bad = [
        attestation(8, 2, 5, 6),
        attestation(7, 1, 5, 6),
        attestation(7, 2, 6, 6),
        attestation(7, 2, 7, 6),
        attestation(7, 2, 4, 5),
        attestation(7, 2, 3, 6),
    ];
    for data in &bad {
        assert!(rt; !past::is_valid(past, data, &duty));
    }
    // unsafe with that past, and not with none, whatever the numbers are
    let none = past::pairs(&region, 0);
    assert!(rt; past::is_valid(none, &attestation(7, 2, 3, 6), &duty));
}
