ghost use Rattle.std.specs.Prelude.{◌≡◌, length, IfOk, OnOk};
ghost use Rattle.std.specs.Result.{result_err};
ghost use Rattle.faults.specs.Orders.{RecordEarlier};
ghost use Rattle.faults.specs.Rows.{first, Exact};
ghost use Rattle.dayfile.specs.Accepted.{Accepted};
ghost use Rattle.dayfile.specs.Records.{check_rows, file_rows};

use crate::contracts::check_contract;
use crate::file::DayFile;
use crate::numbers::{check_prices, check_quantities};
use crate::scans::scan;
use faults::{RecordFault, Section};
use market::Side;

impl<'a> DayFile<'a> {
    /// The check of the records for parties of these sides: the first fault of 16 to 18 by its offset, or 15 where the file has another number of parties.
    #[tactic(auto, using(crate::proofs::Checking::parts, crate::proofs::Ordering::exact_check))]
    pub fn check(&self, sides: &[Side]) -> Result<(), RecordFault>
        ensures fault { result_err result ≡ first (check_rows self.now.bytes.now self.now.parties self.now.layout sides.now) }
        ensures exact { Exact RecordEarlier (check_rows self.now.bytes.now self.now.parties self.now.layout sides.now) (result_err result) }
        ensures accepted { OnOk result (Accepted self.now.bytes.now self.now.layout sides.now) }
    {
        if usize::from(self.parties) != sides.len() {
            return Err(RecordFault::PartyCount);
        }
        // by the line's number and not party by party: its offset comes from the same number, so chunks would be no plainer
        let lines = 24 * sides.len();
        scan(lines, |line| {
            check_quantities(
                self.bytes,
                sides[line / 24],
                self.item_at(Section::Quantities, line),
            )
        })?;
        scan(lines, |line| {
            check_prices(
                self.bytes,
                sides[line / 24],
                self.item_at(Section::NodePrices, line),
            )
        })?;
        scan(self.contract_count(), |k| {
            check_contract(self.bytes, sides, self.item_at(Section::Contracts, k))
        })
    }

    /// The whole check of a file for parties of these sides: the first fault of 11 to 15, then of 16 to 18 by its offset, or the file.
    #[tactic(auto, using(crate::proofs::Checking::by_records, crate::proofs::Checking::by_structure, crate::proofs::Ordering::exact_file, crate::proofs::Ordering::exact_broken))]
    pub fn accept(bytes: &'a [u8], sides: &[Side]) -> Result<DayFile<'a>, RecordFault>
        ensures fault { result_err result ≡ first (file_rows bytes.now sides.now) }
        ensures exact { Exact RecordEarlier (file_rows bytes.now sides.now) (result_err result) }
        ensures opened { IfOk result (λ f. (f.bytes.now ≡ bytes.now) × (f.parties ≡ length sides.now)) }
        ensures accepted { IfOk result (λ f. Accepted f.bytes.now f.layout sides.now) }
    {
        let file = DayFile::open(bytes, sides.len())?;
        file.check(sides)?;
        Ok(file)
    }
}
