ghost use Rattle.std.specs.Prelude.{◌≡◌, Some};
ghost use Rattle.totals.specs.Sums.{plus, on_line};

use market::Line;

/// A party's energy of a day in kWh: as sold or bought day-ahead, and as metered.
#[derive(Clone, Copy, Debug, PartialEq, Eq, Default)]
pub struct Energy {
    pub day_ahead: i64,
    pub metered: i64,
}

impl From<Line> for Energy {
    ghost from_gives = { λ line energy. energy ≡ on_line (Some line) };

    fn from(line: Line) -> Energy {
        Energy {
            day_ahead: line.day_ahead,
            metered: line.metered,
        }
    }
}

impl Energy {
    /// Both energies added up. The sums wrap at 64 bits.
    pub(crate) fn plus(self, other: Energy) -> Energy
        ensures { result ≡ plus self other }
    {
        Energy {
            day_ahead: self.day_ahead.wrapping_add(other.day_ahead),
            metered: self.metered.wrapping_add(other.metered),
        }
    }
}
