use crate::yuan::Mil;
use dayfile::DayFile;
use faults::MonthFault;
use market::{Contract, Side, Sides};
use std::fmt;
use totals::{energy_of, seller_ran};

/// The sheet of an accepted file: the day, parties with their energy, hours in which no seller ran, contracts.
#[derive(Clone, Copy)]
pub(crate) struct Sheet<'a> {
    file: DayFile<'a>,
    sides: Sides,
}

impl<'a> Sheet<'a> {
    /// The same check as the scheduler's, and the sheet of a file that passes.
    // Not `check_day`: that keeps neither the sides nor the file.
    pub(crate) fn accept(bytes: &'a [u8], letters: &[u8]) -> Result<Sheet<'a>, MonthFault> {
        let sides = Sides::from_letters(letters)?;
        let file = DayFile::accept(bytes, sides.as_slice())?;
        Ok(Sheet { file, sides })
    }
}

impl Sheet<'_> {
    fn write_party<W: fmt::Write>(
        &self,
        f: &mut fmt::Formatter<W>,
        party: usize,
        side: Side,
    ) -> fmt::Result {
        let energy = energy_of(&self.file, party, side);
        write!(
            f,
            "\n  party {party:>2} {side:<6} day-ahead {:>9} kWh  metered {:>9} kWh",
            energy.day_ahead, energy.metered
        )
    }

    fn write_idle_hours<W: fmt::Write>(&self, f: &mut fmt::Formatter<W>) -> fmt::Result {
        f.write_str("\n  hours in which no seller ran:")?;
        let sides = self.sides.as_slice();
        let mut idle = (1..25)
            .filter(|hour| !seller_ran(&self.file, sides, *hour))
            .peekable();
        if idle.peek().is_none() {
            f.write_str(" none")?;
        }
        for hour in idle {
            write!(f, " {hour}")?;
        }
        Ok(())
    }

    fn write_contracts<W: fmt::Write>(&self, f: &mut fmt::Formatter<W>) -> fmt::Result {
        let count = self.file.contract_count();
        write!(f, "\n  contracts: {count}")?;
        for contract in (0..count).filter_map(|k| self.file.contract(k)) {
            write_contract(f, contract)?;
        }
        Ok(())
    }
}

fn write_contract<W: fmt::Write>(f: &mut fmt::Formatter<W>, contract: Contract) -> fmt::Result {
    let Contract {
        seller,
        buyer,
        hour,
        kwh,
        price,
    } = contract;
    let yuan = Mil::new(price);
    write!(
        f,
        "\n    hour {hour:>2} party {seller:>2} to party {buyer:>2} {kwh:>7} kWh at {price:>8} mil ({yuan} yuan/MWh)"
    )
}

/// Each line begins with its line break.
impl fmt::Display for Sheet<'_> {
    fn fmt<W: fmt::Write>(&self, f: &mut fmt::Formatter<W>) -> fmt::Result {
        let day = self.file.day();
        write!(f, "\n  day {day}")?;
        for (party, side) in self.sides.as_slice().iter().enumerate() {
            self.write_party(f, party, *side)?;
        }
        self.write_idle_hours(f)?;
        self.write_contracts(f)
    }
}
