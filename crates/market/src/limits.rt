ghost use Rattle.std.specs.Prelude.{◌≡◌};
ghost use Rattle.market.specs.Limits.{beyond_day_ahead, beyond_metered, beyond_price, kept_of};

use crate::kinds::Side;

/// The most parties of a month.
pub const MAX_PARTIES: usize = 64;

/// The most contracts of a day.
pub const MAX_CONTRACTS: usize = 256;

/// The most energy of a party in an hour, and of a contract.
pub const MAX_KWH: i64 = 4_000_000;

/// The highest price; the lowest is its negative.
const MAX_PRICE_MIL: i64 = 5_000_000;

/// Whether day-ahead energy is outside 0 to 4,000,000 kWh.
pub fn beyond_day_ahead(kwh: i64) -> bool
    ensures { result ≡ beyond_day_ahead kwh }
{
    !(0..=MAX_KWH).contains(&kwh)
}

/// Whether a reading is outside the limits of its side: 0 to 4,000,000 kWh, and for a seller down to −4,000,000.
pub fn beyond_metered(side: Side, kwh: i64) -> bool
    ensures { result ≡ beyond_metered side kwh }
{
    let least = match side {
        Side::Seller => -MAX_KWH,
        Side::Buyer => 0,
    };
    !(least..=MAX_KWH).contains(&kwh)
}

/// Whether a price is outside −5,000,000 to 5,000,000 mil.
pub fn beyond_price(mil: i64) -> bool
    ensures { result ≡ beyond_price mil }
{
    !(-MAX_PRICE_MIL..=MAX_PRICE_MIL).contains(&mil)
}

/// The reading that is kept: a seller's negative one counts as 0.
pub fn kept(side: Side, kwh: i64) -> i64
    ensures { result ≡ kept_of side kwh }
{
    match side {
        Side::Seller => kwh.max(0),
        Side::Buyer => kwh,
    }
}
