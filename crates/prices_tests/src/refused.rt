use crate::days::{QUIET, SIDES};
use market::{Line, Side};
use prices::{Market, hour_price, price_pair, price_table};

/// Whether a table is answered.
fn answered(sides: &[Side], lines: &[Line], reference: i64) -> bool {
    price_table(sides, lines, reference).is_some()
}

#[test]
fn no_such_hour(rt: HostRuntime) {
    let lines = [QUIET; 72];
    assert_eq!(rt; price_pair(&SIDES, &lines, 0, 24), None);
    assert_eq!(rt; price_pair(&SIDES, &lines, 0, usize::MAX), None);
    assert_eq!(rt; hour_price(&SIDES, &lines, Market::DayAhead, 0, 24), None);
}

#[test]
fn not_the_lines_of_a_day(rt: HostRuntime) {
    let lines = [QUIET; 72];
    assert!(rt; answered(&SIDES, &lines, 0));
    assert!(rt; !answered(&SIDES, &lines[0..71], 0));
    assert!(rt; !answered(&SIDES[0..2], &lines, 0));
    assert!(rt; answered(&[Side::Buyer; 64], &[QUIET; 1536], 0));
    assert!(rt; !answered(&[Side::Buyer; 65], &[QUIET; 1560], 0));
}

#[test]
fn numbers_beyond_their_limits(rt: HostRuntime) {
    let mut lines = [QUIET; 72];
    assert!(rt; answered(&SIDES, &lines, 5_000_000));
    assert!(rt; !answered(&SIDES, &lines, 5_000_001));
    assert!(rt; !answered(&SIDES, &lines, i64::MIN));
    lines[71].metered = 4_000_000;
    assert!(rt; answered(&SIDES, &lines, 0));
    lines[71].metered = -1;
    assert!(rt; !answered(&SIDES, &lines, 0));
    lines[71] = QUIET;
    lines[0].day_ahead_price = -5_000_001;
    assert!(rt; !answered(&SIDES, &lines, 0));
}
