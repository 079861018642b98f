use books::{RuleBook, ThreePart, TwoPart};
use day::{Funds, settle_day};
use market::{Contract, Line, Side};
use std::test::Fail;

/// An hour without energy.
pub(crate) const QUIET: Line = Line {
    day_ahead: 0,
    metered: 0,
    day_ahead_price: 0,
    real_time_price: 0,
};

/// A plant's hour.
pub(crate) const PLANT: Line = Line {
    day_ahead: 1_000,
    metered: 1_200,
    day_ahead_price: 300_000,
    real_time_price: 400_000,
};

/// A buyer's.
pub(crate) const USER: Line = Line {
    day_ahead: 900,
    metered: 1_150,
    day_ahead_price: 0,
    real_time_price: 0,
};

pub(crate) const PAIR: [Side; 2] = [Side::Seller, Side::Buyer];

pub(crate) const SOLD: Contract = Contract {
    seller: 0,
    buyer: 1,
    hour: 1,
    kwh: 500,
    price: 350_000,
};

/// The charges and funds of a day of two parties.
#[derive(Clone, Copy, Debug, PartialEq, Eq)]
struct Outcome {
    charges: [i64; 2],
    funds: Funds,
}

/// A day of two parties, settled.
fn settled<B: RuleBook>(book: &B, lines: &[Line], contracts: &[Contract]) -> Option<Outcome> {
    let mut charges = [0i64; 2];
    let funds = settle_day(book, &PAIR, lines, contracts, 0, &mut charges)?;
    Some(Outcome { charges, funds })
}

/// What a day must come to: two charges and the three funds.
fn comes_to(charges: [i64; 2], difference: i64, mismatch: i64, rounding: i64) -> Option<Outcome> {
    let funds = Funds {
        difference,
        mismatch,
        rounding,
    };
    Some(Outcome { charges, funds })
}

#[test]
fn one_hour_with_energy(rt: HostRuntime) {
    let mut lines = [QUIET; 48];
    lines[0] = PLANT;
    lines[24] = USER;
    assert_eq!(rt;
        settled(&ThreePart, &lines, &[SOLD]),
        comes_to([-40_500, 39_500], 0, -1_000, 0)
    );
    assert_eq!(rt;
        settled(&TwoPart, &lines, &[SOLD]),
        comes_to([-35_500, 43_500], 10_000, -2_000, 0)
    );
}

#[test]
fn a_buyer_in_an_empty_hour(rt: HostRuntime) {
    let mut lines = [QUIET; 48];
    lines[0] = PLANT;
    // hour 2 has no seller and borrows 300,000 and 400,000 from hour 1
    lines[25] = USER;
    // 900 at 300,000 and 250 at 400,000
    assert_eq!(rt;
        settled(&ThreePart, &lines, &[]),
        comes_to([-38_000, 37_000], 0, -1_000, 0)
    );
}

#[test]
fn contracts_at_the_prices_of_their_hours(rt: HostRuntime) {
    let mut lines = [QUIET; 48];
    lines[0] = PLANT;
    let mut later = PLANT;
    later.day_ahead_price = 200_000;
    lines[23] = later;
    let mut last = SOLD;
    last.hour = 24;
    // 500 × 50,000 in hour 1, 500 × 150,000 in hour 24
    assert_eq!(rt;
        settled(&ThreePart, &lines, &[SOLD, last, SOLD]),
        comes_to([-66_000 - 12_500, 12_500], 0, -66_000, 0)
    );
}

#[test]
fn fen_that_rounding_makes(rt: HostRuntime) -> Result<(), Fail> {
    let sides = [Side::Seller, Side::Buyer, Side::Buyer];
    let mut lines = [QUIET; 72];
    let sold = Line {
        day_ahead: 2,
        metered: 2,
        day_ahead_price: 2_500,
        real_time_price: 2_500,
    };
    let mut drawn = QUIET;
    drawn.day_ahead = 1;
    drawn.metered = 1;
    lines[0] = sold;
    lines[24] = drawn;
    lines[48] = drawn;
    let mut charges = [7i64; 3];
    let Some(funds) = settle_day(&ThreePart, &sides, &lines, &[], 0, &mut charges) else {
        return Err(Fail::new("not settled"));
    };
    assert_eq!(rt; charges, [-1, 0, 0]);
    let expected = Funds {
        difference: 0,
        mismatch: 0,
        rounding: -1,
    };
    assert_eq!(rt; funds, expected);
    Ok(())
}

#[test]
fn hours_are_not_rounded_one_by_one(rt: HostRuntime) {
    let mut lines = [QUIET; 48];
    let mut drawn = QUIET;
    drawn.day_ahead = 1;
    drawn.metered = 1;
    lines[24..48].copy_from_slice(&[drawn; 24]);
    let mut sold = drawn;
    sold.day_ahead_price = 4_999;
    sold.real_time_price = 4_999;
    lines[0] = sold;
    // 24 hours of 4,999 micro: 119,976 micro are 12 fen, not 0
    assert_eq!(rt; settled(&TwoPart, &lines, &[]), comes_to([0, 12], 0, 11, 1));
}
