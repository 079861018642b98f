use crate::answers::{padded, refusal, shares};
use crate::equal::Equal;
use sharing::{LargestRemainder, Running, SharingRule, Unshareable};
use std::array;
use std::process::Abort;

/// As many parties as can share a fund, each with the largest weight: 190,464,000,000 together.
const HEAVIEST: [u64; 64] = [2_976_000_000; 64];

/// The largest fund of theirs: times their total it is 8,999,999,963,136,000,000. Each gets 738,328, and 32 fen are left over.
const LARGEST: i64 = 47_253_024;

#[test]
fn the_most_parties_by_largest_remainder(rt: HostRuntime) {
    let mut expected = [738_328; 64];
    expected[..32].fill(738_329);
    assert_eq!(rt;
        shares(&LargestRemainder, &HEAVIEST, LARGEST),
        Some(expected)
    );
    largest_fund(&rt, &LargestRemainder, &HEAVIEST, LARGEST);
}

#[test]
fn the_most_parties_by_running_weight(rt: HostRuntime) {
    let expected = array::from_fn(|party| if party % 2 == 1 { 738_329 } else { 738_328 });
    assert_eq!(rt; shares(&Running, &HEAVIEST, LARGEST), Some(expected));
    largest_fund(&rt, &Running, &HEAVIEST, LARGEST);
}

#[test]
fn the_most_parties_in_equal_parts(rt: HostRuntime) {
    let mut expected = [2_197_265_625_000_000; 64];
    assert_eq!(rt;
        shares(&Equal, &HEAVIEST, 140_625_000_000_000_000),
        Some(expected)
    );
    expected[63] = 2_197_265_624_999_999;
    assert_eq!(rt;
        shares(&Equal, &HEAVIEST, 140_624_999_999_999_999),
        Some(expected)
    );
    largest_fund(&rt, &Equal, &HEAVIEST, 140_625_000_000_000_000);
}

/// A fund is shared and so is its negative, and with one fen more neither is.
fn largest_fund<R: SharingRule>(rt: &impl Abort, rule: &R, given: &[u64], fund: i64) {
    let above = fund.wrapping_add(1);
    assert_eq!(rt; refusal(rule, given, fund), None);
    assert_eq!(rt; refusal(rule, given, above), Some(Unshareable::Product));
    assert_eq!(rt; refusal(rule, given, fund.wrapping_neg()), None);
    assert_eq!(rt;
        refusal(rule, given, above.wrapping_neg()),
        Some(Unshareable::Product)
    );
}

/// Two weights and the largest fund that is shared by them: times the counted total it is 9 × 10^18, or less than one total below it.
const LARGEST_FUNDS: [([u64; 2], i64); 6] = [
    ([1_000_000_000, 2_000_000_000], 3_000_000_000),
    ([1, 2], 3_000_000_000_000_000_000),
    ([1, 0], 9_000_000_000_000_000_000),
    ([0, 0], 4_500_000_000_000_000_000),
    ([2_976_000_000, 0], 3_024_193_548),
    ([2_976_000_000, 2_976_000_000], 1_512_096_774),
];

#[test]
fn the_largest_funds(rt: HostRuntime) {
    for (given, fund) in LARGEST_FUNDS {
        largest_fund(&rt, &LargestRemainder, &given, fund);
        largest_fund(&rt, &Running, &given, fund);
        largest_fund(&rt, &Equal, &given, 4_500_000_000_000_000_000);
    }
}

#[test]
fn shares_of_the_largest_funds(rt: HostRuntime) {
    assert_eq!(rt;
        shares(
            &LargestRemainder,
            &[1_000_000_000, 2_000_000_000],
            -3_000_000_000,
        ),
        Some(padded([-1_000_000_000, -2_000_000_000, 0]))
    );
    assert_eq!(rt;
        shares(&Running, &[1], 9_000_000_000_000_000_000),
        Some(padded([9_000_000_000_000_000_000, 0, 0]))
    );
    assert_eq!(rt;
        shares(&Equal, &[0, 1], -4_500_000_000_000_000_000),
        Some(padded([-2_250_000_000_000_000_000, -2_250_000_000_000_000_000, 0]))
    );
}

#[test]
fn numbers_farthest_from_zero(rt: HostRuntime) {
    for fund in [i64::MIN, i64::MAX] {
        assert_eq!(rt;
            refusal(&LargestRemainder, &[1], fund),
            Some(Unshareable::Product)
        );
        assert_eq!(rt; refusal(&Running, &[0], fund), Some(Unshareable::Product));
        assert_eq!(rt;
            refusal(&Equal, &HEAVIEST, fund),
            Some(Unshareable::Product)
        );
    }
}

#[test]
fn too_few_or_too_many_parties(rt: HostRuntime) {
    let many = [u64::MAX; 65];
    for fund in [0, 1, i64::MIN] {
        assert_eq!(rt;
            refusal(&LargestRemainder, &[], fund),
            Some(Unshareable::PartyCount)
        );
        assert_eq!(rt;
            refusal(&Running, &[0; 65], fund),
            Some(Unshareable::PartyCount)
        );
        assert_eq!(rt; refusal(&Equal, &many, fund), Some(Unshareable::PartyCount));
    }
}

/// Four weights, and the party that is named: the first whose weight is too large.
const HEAVY: [([u64; 4], usize); 4] = [
    ([1, 2_976_000_001, 2_976_000_001, 1], 1),
    ([u64::MAX, 0, 2_976_000_001, 0], 0),
    ([0, 0, 0, 2_976_000_001], 3),
    ([2_976_000_000, 2_976_000_000, u64::MAX, u64::MAX], 2),
];

#[test]
fn weights_too_large(rt: HostRuntime) {
    for (given, party) in HEAVY {
        assert_eq!(rt;
            refusal(&LargestRemainder, &given, 0),
            Some(Unshareable::Weight(party))
        );
        assert_eq!(rt;
            refusal(&Running, &given, i64::MIN),
            Some(Unshareable::Weight(party))
        );
        assert_eq!(rt;
            refusal(&Equal, &given, 1),
            Some(Unshareable::Weight(party))
        );
    }
    let mut last = HEAVIEST;
    last[63] = 2_976_000_001;
    assert_eq!(rt; refusal(&Running, &last, 1), Some(Unshareable::Weight(63)));
}
