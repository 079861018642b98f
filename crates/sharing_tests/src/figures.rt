use crate::answers::{padded, shares};
use crate::equal::Equal;
use sharing::{LargestRemainder, Running};
use std::process::Abort;

/// Three weights, a fund, and its shares by largest remainder, by running weight and in equal parts.
#[derive(Clone, Copy)]
struct Case([u64; 3], i64, [i64; 3], [i64; 3], [i64; 3]);

/// Funds that do not come out even: by weight they go to one party or another, and equal parts do not look at the weights.
const LEFT_OVER: [Case; 9] = [
    Case([1, 1, 1], 100, [34, 33, 33], [33, 33, 34], [34, 33, 33]),
    Case([1, 1, 1], 2, [1, 1, 0], [0, 1, 1], [1, 1, 0]),
    Case([1, 1, 1], 1, [1, 0, 0], [0, 0, 1], [1, 0, 0]),
    Case([0, 2, 2], 5, [0, 3, 2], [0, 2, 3], [2, 2, 1]),
    // exactly 1 3/7, 2 6/7 and 5 5/7: the two larger remainders are the later ones
    Case([1, 2, 4], 10, [1, 3, 6], [1, 3, 6], [4, 3, 3]),
    Case([4, 2, 1], 10, [6, 3, 1], [5, 3, 2], [4, 3, 3]),
    // exactly 5/7, 2 1/7 and 2 1/7
    Case([1, 3, 3], 5, [1, 2, 2], [0, 2, 3], [2, 2, 1]),
    // exactly 1 5/7, 4/7 and 1 5/7
    Case([3, 1, 3], 4, [2, 0, 2], [1, 1, 2], [2, 1, 1]),
    // one part in 2,976,000,001 is missing to the whole fen
    Case([2_976_000_000, 1, 0], 1, [1, 0, 0], [0, 1, 0], [1, 0, 0]),
];

/// Weights of 0: beside others they count nothing, where there is no other they count 1 each, and in equal parts always.
const NO_WEIGHT: [Case; 5] = [
    Case([0, 0, 0], 1, [1, 0, 0], [0, 0, 1], [1, 0, 0]),
    Case([0, 0, 0], 5, [2, 2, 1], [1, 2, 2], [2, 2, 1]),
    Case([1, 0, 1], 2, [1, 0, 1], [1, 0, 1], [1, 1, 0]),
    Case([1, 0, 1], 1, [1, 0, 0], [0, 0, 1], [1, 0, 0]),
    Case([0, 0, 7], 9, [0, 0, 9], [0, 0, 9], [3, 3, 3]),
];

/// Funds below 0, whose shares are those of their size, negated; and a fund of 0.
const NOT_ABOVE_ZERO: [Case; 6] = [
    Case(
        [1, 1, 1],
        -100,
        [-34, -33, -33],
        [-33, -33, -34],
        [-34, -33, -33],
    ),
    Case([0, 2, 2], -5, [0, -3, -2], [0, -2, -3], [-2, -2, -1]),
    Case([4, 2, 1], -10, [-6, -3, -1], [-5, -3, -2], [-4, -3, -3]),
    Case([1, 1, 1], -1, [-1, 0, 0], [0, 0, -1], [-1, 0, 0]),
    Case([5, 3, 0], 0, [0, 0, 0], [0, 0, 0], [0, 0, 0]),
    Case([0, 0, 0], 0, [0, 0, 0], [0, 0, 0], [0, 0, 0]),
];

fn check_case(rt: &impl Abort, case: Case) {
    let Case(given, fund, largest, running, equal) = case;
    assert_eq!(rt;
        shares(&LargestRemainder, &given, fund),
        Some(padded(largest))
    );
    assert_eq!(rt; shares(&Running, &given, fund), Some(padded(running)));
    assert_eq!(rt; shares(&Equal, &given, fund), Some(padded(equal)));
}

#[test]
fn fen_that_are_left_over(rt: HostRuntime) {
    for case in LEFT_OVER {
        check_case(&rt, case);
    }
}

#[test]
fn weights_of_nothing(rt: HostRuntime) {
    for case in NO_WEIGHT {
        check_case(&rt, case);
    }
}

#[test]
fn funds_not_above_zero(rt: HostRuntime) {
    for case in NOT_ABOVE_ZERO {
        check_case(&rt, case);
    }
}

#[test]
fn two_parties(rt: HostRuntime) {
    assert_eq!(rt;
        shares(&LargestRemainder, &[0, 0], 1),
        Some(padded([1, 0, 0]))
    );
    assert_eq!(rt; shares(&Running, &[0, 0], 1), Some(padded([0, 1, 0])));
    assert_eq!(rt; shares(&Equal, &[0, 0], 1), Some(padded([1, 0, 0])));
}

#[test]
fn one_party_gets_all(rt: HostRuntime) {
    for weight in [0, 1, 2_976_000_000] {
        assert_eq!(rt;
            shares(&LargestRemainder, &[weight], 7),
            Some(padded([7, 0, 0]))
        );
        assert_eq!(rt; shares(&Running, &[weight], 7), Some(padded([7, 0, 0])));
        assert_eq!(rt; shares(&Equal, &[weight], -7), Some(padded([-7, 0, 0])));
    }
}
