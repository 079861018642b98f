ghost use Rattle.std.specs.Prelude.{◌≡◌, ℕ, ◌<◌, ℤ, pos, MatchOption, slice_index_or};
ghost use Rattle.prices.specs.Borrowing.{PricedBy, PairedBy};
ghost use Rattle.prices.specs.Hours.{PriceDay};

use crate::days::{Day, Hour};
use crate::kinds::{HourPrice, Market};
use market::{Line, Side};
use std::array;

impl Day<'_> {
    // The unified price of an hour, and the hour that it comes from.
    fn price(self, market: Market, hour: Hour) -> HourPrice
        ensures { PricedBy market self.entry.sides.now self.entry.lines.now self.entry.reference hour.index result }
    {
        let from = self.lender(market, hour);
        let mil = match from {
            Some(index) => self
                .own_price(market, Hour { index })
                .unwrap_or(self.reference),
            None => self.reference,
        };
        HourPrice { mil, from }
    }

    // Both prices of an hour.
    // A pair of plain numbers, a form of docs/DECISIONS.md; a table of hours holds the same pairs.
    fn pair(self, hour: Hour) -> (i64, i64)
        ensures { PairedBy self.entry.sides.now self.entry.lines.now self.entry.reference hour.index result }
    {
        let day_ahead = self.price(Market::DayAhead, hour);
        let real_time = self.price(Market::RealTime, hour);
        (day_ahead.mil, real_time.mil)
    }
}

// The three functions below take the records apart from one another: that is how callers hold them, and a `Day` would be made to be asked once.

/// The unified price of an hour, counted from 0, in one of the two markets, with the hour that it comes from. None where these
/// are not the lines of a day within their limits, the reference price is outside those of a price, or there is no such hour.
pub fn hour_price(
    sides: &[Side],
    lines: &[Line],
    market: Market,
    reference: i64,
    hour: usize,
) -> Option<HourPrice>
    ensures { MatchOption result (PriceDay sides.now lines.now reference × hour < 24 → ⊥) (λ price. PriceDay sides.now lines.now reference × hour < 24 × PricedBy market sides.now lines.now reference hour price) }
{
    let hour = Hour::new(hour)?;
    Some(Day::new(sides, lines, reference)?.price(market, hour))
}

/// The two unified prices of an hour, counted from 0, the day-ahead one first. None as for one of them.
pub fn price_pair(sides: &[Side], lines: &[Line], reference: i64, hour: usize) -> Option<(i64, i64)>
    ensures { MatchOption result (PriceDay sides.now lines.now reference × hour < 24 → ⊥) (λ pair. PriceDay sides.now lines.now reference × hour < 24 × PairedBy sides.now lines.now reference hour pair) }
{
    let hour = Hour::new(hour)?;
    Some(Day::new(sides, lines, reference)?.pair(hour))
}

/// The two unified prices of every hour. None where these are not the lines of a day within their limits, or the reference
/// price is outside those of a price.
pub fn price_table(sides: &[Side], lines: &[Line], reference: i64) -> Option<[(i64, i64); 24]>
    ensures { MatchOption result (PriceDay sides.now lines.now reference → ⊥) (λ table. PriceDay sides.now lines.now reference × ((hour : ℕ) → hour < 24 → PairedBy sides.now lines.now reference hour (slice_index_or table hour (pos 0, pos 0)))) }
{
    let day = Day::new(sides, lines, reference)?;
    Some(array::from_fn(
        |index|
            requires { index < 24 }
        { day.pair(Hour { index }) },
    ))
}
