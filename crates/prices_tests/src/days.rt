use market::{Line, Side};
use prices::{HourPrice, Market, hour_price, price_pair, price_table};
use std::test::Fail;

/// An hour without energy.
pub(crate) const QUIET: Line = Line {
    day_ahead: 0,
    metered: 0,
    day_ahead_price: 0,
    real_time_price: 0,
};

/// Two plants and a buyer.
pub(crate) const SIDES: [Side; 3] = [Side::Seller, Side::Seller, Side::Buyer];

/// The same energy and node price in both markets.
fn plain(kwh: i64, mil: i64) -> Line {
    Line {
        day_ahead: kwh,
        metered: kwh,
        day_ahead_price: mil,
        real_time_price: mil,
    }
}

/// The price of an hour of these lines.
fn told(lines: &[Line], market: Market, hour: usize) -> Option<HourPrice> {
    hour_price(&SIDES, lines, market, 77, hour)
}

/// A price, and the hour that it comes from.
fn price(mil: i64, from: Option<usize>) -> Option<HourPrice> {
    Some(HourPrice { mil, from })
}

#[test]
fn a_mean_rounded_once(rt: HostRuntime) {
    let mut lines = [QUIET; 72];
    lines[22] = plain(100, 300_000);
    lines[46] = plain(200, 400_001);
    lines[0] = plain(1, -1);
    lines[24] = plain(1, -2);
    assert_eq!(rt;
        price_pair(&SIDES, &lines, 77, 22),
        Some((366_667, 366_667))
    );
    assert_eq!(rt; price_pair(&SIDES, &lines, 77, 0), Some((-2, -2)));
    // hour 24 is empty, and there is none after it
    assert_eq!(rt;
        told(&lines, Market::DayAhead, 23),
        price(366_667, Some(22))
    );
    // from hour 2 on the next is hour 23, not the nearer hour 1
    assert_eq!(rt; told(&lines, Market::DayAhead, 1), price(366_667, Some(22)));
}

#[test]
fn later_before_earlier(rt: HostRuntime) {
    let mut lines = [QUIET; 72];
    lines[1] = plain(5, 300_000);
    lines[27] = plain(7, 310_000);
    assert_eq!(rt; told(&lines, Market::RealTime, 0), price(300_000, Some(1)));
    assert_eq!(rt; told(&lines, Market::RealTime, 1), price(300_000, Some(1)));
    assert_eq!(rt; told(&lines, Market::RealTime, 2), price(310_000, Some(3)));
    assert_eq!(rt; told(&lines, Market::RealTime, 4), price(310_000, Some(3)));
}

#[test]
fn buyers_form_no_price(rt: HostRuntime) {
    let mut lines = [QUIET; 72];
    lines[48] = Line {
        day_ahead: 900,
        metered: 1_150,
        day_ahead_price: 0,
        real_time_price: 0,
    };
    assert_eq!(rt; told(&lines, Market::DayAhead, 0), price(77, None));
    assert_eq!(rt; price_pair(&SIDES, &lines, 77, 23), Some((77, 77)));
}

#[test]
fn each_market_for_itself(rt: HostRuntime) {
    let mut lines = [QUIET; 72];
    lines[5] = Line {
        day_ahead: 1_000,
        metered: 0,
        day_ahead_price: 300_000,
        real_time_price: 400_000,
    };
    lines[30] = Line {
        day_ahead: 0,
        metered: 10,
        day_ahead_price: 310_000,
        real_time_price: -5_000_000,
    };
    assert_eq!(rt; told(&lines, Market::DayAhead, 6), price(300_000, Some(5)));
    assert_eq!(rt;
        told(&lines, Market::RealTime, 5),
        price(-5_000_000, Some(6))
    );
}

#[test]
fn a_table_of_24_pairs(rt: HostRuntime) -> Result<(), Fail> {
    let mut lines = [QUIET; 72];
    lines[3] = plain(4_000_000, 5_000_000);
    lines[27] = plain(4_000_000, 4_999_999);
    lines[20] = plain(3, -5);
    let Some(table) = price_table(&SIDES, &lines, -1) else {
        return Err(Fail::new("no prices"));
    };
    let half_up = (5_000_000, 5_000_000);
    assert_eq!(rt; table[0], half_up);
    assert_eq!(rt; table[3], half_up);
    assert_eq!(rt; table[4], (-5, -5));
    assert_eq!(rt; table[23], (-5, -5));
    Ok(())
}
