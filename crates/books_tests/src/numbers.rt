use ledger::{Cause, Entry};
use market::{Contract, Line};
use money::{rounded_quotient, tally, to_fen};

/// Micro and the fen that they round to.
const FEN: [(i64, i64); 11] = [
    (0, 0),
    (4_999, 0),
    (5_000, 1),
    (14_999, 1),
    (15_000, 2),
    (-4_999, 0),
    (-5_000, -1),
    (-14_999, -1),
    (-15_000, -2),
    (i64::MAX, 922_337_203_685_478),
    (i64::MIN, -922_337_203_685_478),
];

#[test]
fn micro_to_fen(rt: HostRuntime) {
    for (micro, fen) in FEN {
        assert_eq!(rt; to_fen(micro), fen);
    }
}

/// A dividend, a divisor and their rounded quotient.
const QUOTIENTS: [(i64, i64, Option<i64>); 12] = [
    (110_000_200, 300, Some(366_667)),
    (-3, 2, Some(-2)),
    (3, 2, Some(2)),
    (1, 3, Some(0)),
    (2, 3, Some(1)),
    (-2, 3, Some(-1)),
    (7, 1, Some(7)),
    (7, 0, None),
    (7, -1, None),
    (i64::MIN, 1, Some(i64::MIN)),
    (i64::MAX, i64::MAX, Some(1)),
    (i64::MIN, i64::MAX, Some(-1)),
];

#[test]
fn rounded_quotients(rt: HostRuntime) {
    for (dividend, divisor, quotient) in QUOTIENTS {
        assert_eq!(rt; rounded_quotient(dividend, divisor), quotient);
    }
}

fn entry(fen: i64) -> Entry {
    Entry {
        call: 1,
        day: 1,
        account: 0,
        cause: Cause::Day,
        fen,
    }
}

fn reading(metered: i64) -> Line {
    Line {
        day_ahead: 900,
        metered,
        day_ahead_price: 300_000,
        real_time_price: 400_000,
    }
}

fn contract(kwh: i64) -> Contract {
    Contract {
        seller: 0,
        buyer: 1,
        hour: 1,
        kwh,
        price: 350_000,
    }
}

#[test]
fn tallies_of_three_kinds(rt: HostRuntime) {
    assert_eq!(rt; tally(&[entry(-40_500), entry(39_500), entry(1_000)]), 0);
    assert_eq!(rt; tally(&[reading(1_200), reading(0), reading(1_150)]), 2_350);
    assert_eq!(rt; tally(&[contract(500), contract(4_000_000)]), 4_000_500);
}

#[test]
fn a_tally_wraps(rt: HostRuntime) {
    let none: [Entry; 0] = [];
    assert_eq!(rt; tally(&none), 0);
    assert_eq!(rt; tally(&[entry(i64::MAX), entry(1)]), i64::MIN);
    assert_eq!(rt; tally(&[entry(i64::MIN), entry(i64::MIN), entry(-3)]), -3);
}
