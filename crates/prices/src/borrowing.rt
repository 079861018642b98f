ghost use Rattle.std.specs.Prelude.{◌≡◌, ℕ, ◌-◌, ◌<◌, ◌≤◌};
ghost use Rattle.prices.specs.Borrowing.{Borrows};
ghost use Rattle.prices.specs.Hours.{sold, first_from, last_before, lender};

use crate::days::{Day, Hour};
use crate::hours::forming;
use crate::kinds::Market;

// A market and an hour stay two arguments: each market is asked of an hour, and each hour of a market.

impl Day<'_> {
    // The first hour from `from` on that is not empty.
    // A `loop` over hours left with its find, and a labelled exit from the inner one: a form of docs/DECISIONS.md.
    fn first_from(self, market: Market, from: Hour) -> Option<usize>
        ensures { result ≡ first_from (sold market self.entry.sides.now self.entry.lines.now) from.index (24 - from.index) }
    {
        let mut hour = from.index;
        'hours: loop {
            if hour >= 24 {
                break 'hours None;
            }
            for (side, row) in self.sides.iter().zip(self.rows()) {
                if forming(*side, row[hour], market).kwh > 0 {
                    break 'hours Some(hour);
                }
            }
            hour += 1;
        }
    }

    // The last hour before `before` that is not empty.
    fn last_before(self, market: Market, before: Hour) -> Option<usize>
        ensures { result ≡ last_before (sold market self.entry.sides.now self.entry.lines.now) before.index }
    {
        (0..before.index).rev().find(
            |index|
                requires { index.now < 24 }
            { self.is_sold(market, Hour { index: *index }) },
        )
    }

    /// The hour whose price an hour takes: its own, a later one, an earlier one, or none.
    pub(crate) fn lender(self, market: Market, hour: Hour) -> Option<usize>
        ensures value { result ≡ lender (sold market self.entry.sides.now self.entry.lines.now) hour.index }
        ensures borrows { Borrows (sold market self.entry.sides.now self.entry.lines.now) hour.index result }
    {
        // tried with `or_else`: the clause `value` stayed open, since nothing is known of what the closure that is passed answers
        match self.first_from(market, hour) {
            Some(later) => Some(later),
            None => self.last_before(market, hour),
        }
    }
}
