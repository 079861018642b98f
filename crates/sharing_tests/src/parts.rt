use crate::answers::part;
use crate::equal::Equal;
use sharing::{ExactPart, LargestRemainder, Running, exact_part};
use std::process::Abort;

/// Three weights, a fund, a party, and its exact part where weights count as given.
#[derive(Clone, Copy)]
struct Case([u64; 3], i64, usize, Option<ExactPart>);

fn check_case(rt: &impl Abort, case: Case) {
    let Case(given, fund, party, expected) = case;
    assert_eq!(rt;
        exact_part(&LargestRemainder, &given, fund, party),
        expected
    );
    assert_eq!(rt; exact_part(&Running, &given, fund, party), expected);
}

#[test]
fn exact_parts(rt: HostRuntime) {
    let parts = [
        Case([1, 1, 1], 100, 0, part(1, 3, 33, 1)),
        Case([1, 1, 1], 100, 2, part(1, 3, 33, 1)),
        Case([1, 1, 1], -100, 1, part(1, 3, 33, 1)),
        Case([1, 2, 4], 10, 0, part(1, 7, 1, 3)),
        Case([1, 2, 4], 10, 1, part(2, 7, 2, 6)),
        Case([1, 2, 4], 10, 2, part(4, 7, 5, 5)),
        Case([0, 2, 2], 5, 0, part(0, 4, 0, 0)),
        Case([0, 0, 0], 1, 1, part(1, 3, 0, 1)),
        Case([5, 3, 0], 0, 0, part(5, 8, 0, 0)),
        Case(
            [1, 1, 1],
            3_000_000_000_000_000_000,
            0,
            part(1, 3, 1_000_000_000_000_000_000, 0),
        ),
    ];
    for case in parts {
        check_case(&rt, case);
    }
}

/// No such party, and funds that are refused.
const NO_PART: [Case; 6] = [
    Case([1, 1, 1], 100, 3, None),
    Case([1, 1, 1], 100, usize::MAX, None),
    Case([1, 1, 2_976_000_001], 100, 0, None),
    Case([1, 1, 1], 3_000_000_000_000_000_001, 0, None),
    Case([1, 1, 1], -3_000_000_000_000_000_001, 0, None),
    Case([1, 0, 0], i64::MIN, 0, None),
];

#[test]
fn no_exact_part(rt: HostRuntime) {
    for case in NO_PART {
        check_case(&rt, case);
    }
    assert_eq!(rt; exact_part(&Running, &[], 100, 0), None);
    assert_eq!(rt; exact_part(&Running, &[1; 65], 100, 0), None);
}

#[test]
fn exact_parts_where_each_counts_one(rt: HostRuntime) {
    for party in 0..3 {
        assert_eq!(rt; exact_part(&Equal, &[0, 2, 2], 5, party), part(1, 3, 1, 2));
        assert_eq!(rt; exact_part(&Equal, &[1, 2, 4], -9, party), part(1, 3, 3, 0));
    }
    assert_eq!(rt; exact_part(&Equal, &[0, 2, 2], 5, 3), None);
    assert_eq!(rt;
        exact_part(&Equal, &[0, 2, 2], 3_000_000_000_000_000_001, 0),
        None
    );
}
