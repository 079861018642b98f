ghost use Rattle.std.specs.Prelude.{◌≡◌, ◌^◌, ◌<◌};
ghost use Rattle.dayfile.specs.Bytes.{byte_at};
ghost use Rattle.dayfile.specs.Records.{item_at, line_in, line_of, contract_of};

use crate::bytes::{byte_at, i64_at};
use crate::contracts::contract_at;
use crate::file::DayFile;
use crate::parts::Layout;
use faults::Section;
use market::{Contract, Line, Side, kept};

impl DayFile<'_> {
    /// Where an item of a section stands in the file.
    pub(crate) fn item_at(&self, section: Section, item: usize) -> usize
        requires { item < 2 ^ 32 }
        ensures value { result ≡ item_at self.now.layout section item }
        ensures bound { result < 2 ^ 36 }
    {
        match section {
            Section::Quantities => self.layout.quantities as usize + 8 * item,
            Section::NodePrices => self.layout.prices as usize + 8 * item,
            Section::Contracts => self.layout.contracts as usize + 12 * item,
        }
    }

    /// The day of the month that the file is for, as byte 4 has it: any number from 0 to 255.
    pub fn day(&self) -> u8
        ensures { result ≡ byte_at self.now.bytes.now 4 }
    {
        byte_at(self.bytes, 4)
    }

    /// The numbers of a line, counted from 0, whose party is of this side.
    fn line_in(&self, side: Side, line: usize) -> Line
        requires { line < 2 ^ 32 }
        ensures { result ≡ line_in self.now.bytes.now self.now.layout side line }
    {
        let quantities = self.item_at(Section::Quantities, line);
        let prices = self.item_at(Section::NodePrices, line);
        Line {
            day_ahead: i64_at(self.bytes, quantities),
            metered: kept(side, i64_at(self.bytes, quantities + 4)),
            day_ahead_price: i64_at(self.bytes, prices),
            real_time_price: i64_at(self.bytes, prices + 4),
        }
    }

    /// The numbers of a party, which is of this side, in an hour; none where the file has no such party or hour. A seller's negative reading is 0 here.
    pub fn line(&self, party: usize, side: Side, hour: usize) -> Option<Line>
        ensures { result ≡ line_of self.now.bytes.now self.now.parties self.now.layout party side hour }
    {
        if party >= usize::from(self.parties) || hour < 1 || 24 < hour {
            return None;
        }
        Some(self.line_in(side, 24 * party + (hour - 1)))
    }

    /// How many contracts the file has.
    pub fn contract_count(&self) -> usize
        ensures { result ≡ self.now.layout.contract_count }
    {
        self.layout.contract_count as usize
    }

    /// A contract of the file, counted from 0; none where there are not so many.
    pub fn contract(&self, k: usize) -> Option<Contract>
        ensures { result ≡ contract_of self.now.bytes.now self.now.layout k }
    {
        let Layout { contract_count, .. } = self.layout;
        if k >= contract_count as usize {
            return None;
        }
        let (contract, _) = contract_at(self.bytes, self.item_at(Section::Contracts, k));
        Some(contract)
    }
}
