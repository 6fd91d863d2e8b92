// One entry more: what stands before it, what comes, and what stands after it. Of eight numbers the region has two for each that may be kept; the rest stays as it is.
use std::process::Abort;
use wire::Entry;

// The largest number.
const TOP: u64 = 18446744073709551615;

#[derive(Clone, Copy)]
struct Example {
    before: [u64; 8],
    count: usize,
    most: usize,
    entry: Entry,
    after: [u64; 8],
    result: usize,
}

fn holds(rt: &impl Abort, example: &Example) {
    let mut region = example.before;
    assert!(rt; example.count <= example.most && example.most <= 4);
    let result = past::keep_one_more(&mut region, example.count, example.most, example.entry);
    assert_eq!(rt; result, example.result);
    assert_eq!(rt; region, example.after);
}

fn with_three(
    before: [u64; 8],
    count: usize,
    source: u64,
    target: u64,
    after: [u64; 8],
    kept: usize,
) -> Example {
    Example {
        before,
        count,
        most: 3,
        entry: Entry { source, target },
        after,
        result: kept,
    }
}

#[test]
fn fills_up(rt: HostRuntime) {
    let examples = [
        // the first one
        with_three(
            [0, 0, 0, 0, 0, 0, 77, 88],
            0,
            3,
            4,
            [3, 4, 0, 0, 0, 0, 77, 88],
            1,
        ),
        // a larger target, a smaller one, one between
        with_three(
            [3, 4, 0, 0, 0, 0, 77, 88],
            1,
            4,
            9,
            [4, 9, 3, 4, 0, 0, 77, 88],
            2,
        ),
        with_three(
            [3, 4, 0, 0, 0, 0, 77, 88],
            1,
            1,
            2,
            [3, 4, 1, 2, 0, 0, 77, 88],
            2,
        ),
        with_three(
            [4, 9, 3, 4, 0, 0, 77, 88],
            2,
            5,
            6,
            [4, 9, 5, 6, 3, 4, 77, 88],
            3,
        ),
        // a target that is there
        with_three(
            [4, 9, 3, 4, 0, 0, 77, 88],
            2,
            7,
            9,
            [4, 9, 3, 4, 0, 0, 77, 88],
            2,
        ),
        with_three(
            [4, 9, 3, 4, 0, 0, 77, 88],
            2,
            0,
            4,
            [4, 9, 3, 4, 0, 0, 77, 88],
            2,
        ),
        // the smallest and the largest numbers
        with_three(
            [0, 0, 0, 0, 0, 0, 77, 88],
            0,
            0,
            0,
            [0, 0, 0, 0, 0, 0, 77, 88],
            1,
        ),
        with_three(
            [0, 0, 0, 0, 0, 0, 77, 88],
            1,
            TOP,
            TOP,
            [TOP, TOP, 0, 0, 0, 0, 77, 88],
            2,
        ),
        with_three(
            [TOP, TOP, 0, 0, 0, 0, 77, 88],
            2,
            0,
            TOP,
            [TOP, TOP, 0, 0, 0, 0, 77, 88],
            2,
        ),
    ];
    for example in &examples {
        holds(&rt, example);
    }
}

#[test]
fn stays_full(rt: HostRuntime) {
    let examples = [
        // a new largest target, and one between: the smallest goes
        with_three(
            [4, 9, 5, 6, 3, 4, 77, 88],
            3,
            9,
            10,
            [9, 10, 4, 9, 5, 6, 77, 88],
            3,
        ),
        with_three(
            [4, 9, 5, 6, 3, 4, 77, 88],
            3,
            6,
            8,
            [4, 9, 6, 8, 5, 6, 77, 88],
            3,
        ),
        with_three(
            [4, 9, 5, 6, 3, 4, 77, 88],
            3,
            4,
            5,
            [4, 9, 5, 6, 4, 5, 77, 88],
            3,
        ),
        // below the smallest, and targets that are there
        with_three(
            [4, 9, 5, 6, 3, 4, 77, 88],
            3,
            1,
            2,
            [4, 9, 5, 6, 3, 4, 77, 88],
            3,
        ),
        with_three(
            [4, 9, 5, 6, 3, 4, 77, 88],
            3,
            0,
            6,
            [4, 9, 5, 6, 3, 4, 77, 88],
            3,
        ),
        with_three(
            [4, 9, 5, 6, 3, 4, 77, 88],
            3,
            0,
            4,
            [4, 9, 5, 6, 3, 4, 77, 88],
            3,
        ),
        // in no order: before the first that has a smaller target
        with_three(
            [1, 2, 5, 9, 3, 4, 77, 88],
            3,
            6,
            7,
            [6, 7, 1, 2, 5, 9, 77, 88],
            3,
        ),
        // the whole slice, one entry, and none
        Example {
            before: [9, 9, 7, 7, 5, 5, 3, 3],
            count: 4,
            most: 4,
            entry: Entry {
                source: 4,
                target: 4,
            },
            after: [9, 9, 7, 7, 5, 5, 4, 4],
            result: 4,
        },
        Example {
            before: [0, 1, 66, 77, 88, 99, 1, 2],
            count: 1,
            most: 1,
            entry: Entry {
                source: TOP,
                target: TOP,
            },
            after: [TOP, TOP, 66, 77, 88, 99, 1, 2],
            result: 1,
        },
        Example {
            before: [9, 8, 7, 6, 5, 4, 3, 2],
            count: 0,
            most: 0,
            entry: Entry {
                source: 1,
                target: 2,
            },
            after: [9, 8, 7, 6, 5, 4, 3, 2],
            result: 0,
        },
    ];
    for example in &examples {
        holds(&rt, example);
    }
}
