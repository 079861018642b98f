ghost use Rattle.std.specs.Prelude.{◌≡◌, Decides};
ghost use Rattle.totals.specs.Sums.{energy_of, energy_in, sold, Ran};

use crate::energy::Energy;
use dayfile::DayFile;
use market::Side;

// A party and its side stay two arguments: the side is the caller's, and the file knows none.

/// The energy of a party, which is of this side, in an hour; 0 where the file has no such party or hour.
fn energy_in(file: &DayFile<'_>, party: usize, side: Side, hour: usize) -> Energy
    ensures { result ≡ energy_in file.now party side hour }
{
    file.line(party, side, hour)
        .map_or(Energy::default(), Energy::from)
}

/// The energy of a party, which is of this side, over the 24 hours; 0 where the file has no such party. Sums wrap at 64 bits.
pub fn energy_of(file: &DayFile<'_>, party: usize, side: Side) -> Energy
    ensures { result ≡ energy_of file.now party side }
{
    (1..25).fold(Energy::default(), |sum: Energy, hour| {
        sum.plus(energy_in(file, party, side, hour))
    })
}

/// A seller's reading in an hour; 0 for a buyer, and where the file has no such party or hour.
fn sold_by(file: &DayFile<'_>, party: usize, side: Side, hour: usize) -> i64
    ensures { result ≡ sold file.now party side hour }
{
    match side {
        Side::Seller => energy_in(file, party, side, hour).metered,
        Side::Buyer => 0,
    }
}

/// Whether a seller has a reading other than 0 in an hour, the parties being of these sides.
pub fn seller_ran(file: &DayFile<'_>, sides: &[Side], hour: usize) -> bool
    ensures { Decides result (Ran file.now sides.now hour) }
{
    sides
        .iter()
        .enumerate()
        .any(|(party, side)| sold_by(file, party, *side, hour) != 0)
}
