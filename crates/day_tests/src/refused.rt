use crate::days::{PAIR, PLANT, QUIET, SOLD};
use books::ThreePart;
use day::settle_day;
use market::{Contract, Line};
use std::process::Abort;

/// Whether a day is settled; where it is not, the charges must stand as they stood.
fn settled(
    rt: &impl Abort,
    lines: &[Line],
    contracts: &[Contract],
    reference: i64,
    places: usize,
) -> bool {
    let mut charges = [5i64; 4];
    let some = match charges.get_mut(0..places) {
        Some(room) => settle_day(&ThreePart, &PAIR, lines, contracts, reference, room).is_some(),
        None => false,
    };
    if !some {
        assert_eq!(rt; charges, [5, 5, 5, 5]);
    }
    some
}

#[test]
fn wrong_days(rt: HostRuntime) {
    let mut lines = [QUIET; 48];
    lines[0] = PLANT;
    assert!(rt; settled(&rt, &lines, &[SOLD], 0, 2));
    assert!(rt; !settled(&rt, &lines, &[SOLD], 0, 1));
    assert!(rt; !settled(&rt, &lines, &[SOLD], 0, 3));
    assert!(rt; !settled(&rt, &lines[0..47], &[SOLD], 0, 2));
    assert!(rt; !settled(&rt, &lines, &[SOLD], 5_000_001, 2));
    lines[47].metered = 4_000_001;
    assert!(rt; !settled(&rt, &lines, &[SOLD], 0, 2));
}

#[test]
fn wrong_contracts(rt: HostRuntime) {
    let lines = [QUIET; 48];
    assert!(rt; settled(&rt, &lines, &[SOLD; 256], 0, 2));
    assert!(rt; !settled(&rt, &lines, &[SOLD; 257], 0, 2));
    let mut contract = SOLD;
    contract.hour = 25;
    assert!(rt; !settled(&rt, &lines, &[SOLD, contract], 0, 2));
    contract.hour = 0;
    assert!(rt; !settled(&rt, &lines, &[SOLD, contract], 0, 2));
    contract = SOLD;
    contract.buyer = 2;
    assert!(rt; !settled(&rt, &lines, &[contract], 0, 2));
    contract = SOLD;
    contract.kwh = 4_000_001;
    assert!(rt; !settled(&rt, &lines, &[contract], 0, 2));
    contract = SOLD;
    contract.price = -5_000_001;
    assert!(rt; !settled(&rt, &lines, &[contract], 0, 2));
}
