ghost use Rattle.std.specs.Prelude.{◌≡◌, ℕ, ◌≤◌, ℤ, ◌*ℤ◌, unsigned_abs};
ghost use Rattle.market.specs.Limits.{Energy, Price, LineWithin};
ghost use Rattle.money.specs.Rounding.{quotient_of};
ghost use Rattle.prices.specs.Hours.{energy_of, node_price_of, forming, energy_in, worth_in, sold};

use crate::days::{Day, Hour};
use crate::kinds::Market;
use market::{Line, Side};
use money::rounded_quotient;

// Energy, and a node price.
#[derive(Clone, Copy)]
struct Quote {
    kwh: i64,
    mil: i64,
}

/// Energy, and what it is worth in micro.
#[derive(Clone, Copy)]
pub(crate) struct Traded {
    pub(crate) kwh: i64,
    pub(crate) worth: i64,
}

// The energy of a line in a market, and its node price there.
fn in_market(line: Line, market: Market) -> Quote
    requires { LineWithin line }
    ensures kwh { result.kwh ≡ energy_of market line }
    ensures mil { result.mil ≡ node_price_of market line }
    ensures energy { Energy result.kwh }
    ensures price { Price result.mil }
{
    match market {
        Market::DayAhead => Quote {
            kwh: line.day_ahead,
            mil: line.day_ahead_price,
        },
        Market::RealTime => Quote {
            kwh: line.metered,
            mil: line.real_time_price,
        },
    }
}

/// What a party's hour adds to what forms the price: only what sellers sell forms it.
pub(crate) fn forming(side: Side, line: Line, market: Market) -> Traded
    requires { LineWithin line }
    ensures kwh { result.kwh ≡ forming side (energy_of market line) }
    ensures worth { result.worth ≡ forming side (energy_of market line *ℤ node_price_of market line) }
    ensures energy { Energy result.kwh }
    ensures modest { unsigned_abs result.worth ≤ 80000000000000 }
{
    match side {
        Side::Seller => {
            let quote = in_market(line, market);
            Traded {
                kwh: quote.kwh,
                worth: quote.kwh * quote.mil,
            }
        }
        Side::Buyer => Traded { kwh: 0, worth: 0 },
    }
}

impl Day<'_> {
    /// The energy that forms an hour's price, and what it is worth at the sellers' nodes.
    pub(crate) fn traded(self, market: Market, hour: Hour) -> Traded
        ensures kwh { result.kwh ≡ energy_in market self.entry.sides.now self.entry.lines.now hour.index }
        ensures worth { result.worth ≡ worth_in market self.entry.sides.now self.entry.lines.now hour.index }
    {
        let mut kwh = 0i64;
        let mut worth = 0i64;
        for (side, row) in self.sides.iter().zip(self.rows()) {
            let part = forming(*side, row[hour.index], market);
            kwh += part.kwh;
            worth += part.worth;
        }
        Traded { kwh, worth }
    }

    /// Whether an hour is not empty.
    pub(crate) fn is_sold(self, market: Market, hour: Hour) -> bool
        ensures { result ≡ sold market self.entry.sides.now self.entry.lines.now hour.index }
    {
        self.traded(market, hour).kwh > 0
    }

    /// The price of an hour by its own energy; none where it is empty.
    pub(crate) fn own_price(self, market: Market, hour: Hour) -> Option<i64>
        ensures { result ≡ quotient_of (worth_in market self.entry.sides.now self.entry.lines.now hour.index) (energy_in market self.entry.sides.now self.entry.lines.now hour.index) }
    {
        let Traded { kwh, worth } = self.traded(market, hour);
        rounded_quotient(worth, kwh)
    }
}
