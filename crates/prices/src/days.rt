ghost use Rattle.std.specs.Prelude.{◌≡◌, ℕ, ◌<◌, [], length, Decides, MatchOption, slice_index_or};
ghost use Rattle.prices.specs.Hours.{PriceDay, beyond_line, line_at, no_line};

use market::{Line, MAX_PARTIES, Side, beyond_day_ahead, beyond_price};

// 24 has no name: the hours of a day are no limit that a rule could set otherwise.

/// An hour of a day, counted from 0.
#[derive(Clone, Copy)]
pub(crate) struct Hour {
    pub(crate) index: usize,
    ghost early: { index < 24 },
}

impl Hour {
    /// The hour of this number. None where a day has no such hour.
    pub(crate) fn new(index: usize) -> Option<Hour>
        ensures { MatchOption result (index < 24 → ⊥) (λ hour. hour.index ≡ index) }
    {
        if index >= 24 {
            return None;
        }
        Some(Hour { index })
    }
}

/// What prices are asked of: the lines of a day, party by party, and a reference price.
// Two slices, as callers have them: nothing can be put together without a heap.
#[derive(Clone, Copy)]
pub(crate) struct Day<'a> {
    pub(crate) sides: &'a [Side],
    pub(crate) lines: &'a [Line],
    pub(crate) reference: i64,
    ghost priced: { PriceDay sides.now lines.now reference },
}

// Whether a number of the line is outside its limits.
fn beyond_line(line: Line) -> bool
    ensures { result ≡ beyond_line line }
{
    beyond_day_ahead(line.day_ahead)
        || beyond_day_ahead(line.metered)
        || beyond_price(line.day_ahead_price)
        || beyond_price(line.real_time_price)
}

// Whether prices can be asked of these lines and this reference price.
fn is_price_day(sides: &[Side], lines: &[Line], reference: i64) -> bool
    ensures { Decides result (PriceDay sides.now lines.now reference) }
{
    if sides.len() > MAX_PARTIES || lines.len() != 24 * sides.len() {
        return false;
    }
    !beyond_price(reference) && !lines.iter().any(|line| beyond_line(*line))
}

impl<'a> Day<'a> {
    /// The day of these records. None where they are not those of a day within its limits.
    pub(crate) fn new(sides: &'a [Side], lines: &'a [Line], reference: i64) -> Option<Day<'a>>
        ensures { MatchOption result (PriceDay sides.now lines.now reference → ⊥) (λ day. (day.sides.now ≡ sides.now) × (day.lines.now ≡ lines.now) × (day.reference ≡ reference)) }
    {
        if !is_price_day(sides, lines, reference) {
            return None;
        }
        Some(Day {
            sides,
            lines,
            reference,
        })
    }

    /// Each party's 24 lines.
    pub(crate) fn rows(self) -> &'a [[Line; 24]]
        ensures parties { length result.now ≡ length self.entry.sides.now }
        ensures lines { (party hour : ℕ) → party < length self.entry.sides.now → hour < 24 → slice_index_or (slice_index_or result.now party []) hour no_line ≡ line_at self.entry.lines.now party hour }
    {
        let (rows, _) = self.lines.as_chunks::<24>();
        rows
    }
}
