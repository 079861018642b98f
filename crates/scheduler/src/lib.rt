//! The scheduler's check of a day's file: the kind letters first, then the file for parties of these sides.

#![tactic(auto)]

ghost use Rattle.std.specs.Prelude.{◌≡◌};
ghost use Rattle.std.specs.Result.{result_err};
ghost use Rattle.faults.specs.Orders.{MonthEarlier};
ghost use Rattle.faults.specs.Rows.{first, Exact};
ghost use Rattle.scheduler.specs.Check.{day_rows, number_of};

use dayfile::DayFile;
use faults::MonthFault;
use market::Sides;

/// Why a file is refused for parties of these kind letters, if it is: 2 for the number of letters, 3, 11 to 15, then 16 to 18 by their offset.
#[tactic(auto, using(crate::proofs::Checking::by_letters, crate::proofs::Checking::exact_letters))]
pub fn check_day(file: &[u8], letters: &[u8]) -> Result<(), MonthFault>
    ensures fault { result_err result ≡ first (day_rows file.now letters.now) }
    ensures exact { Exact MonthEarlier (day_rows file.now letters.now) (result_err result) }
{
    let sides = Sides::from_letters(letters)?;
    DayFile::accept(file, sides.as_slice())?;
    Ok(())
}

/// The same as one number: 0, or the number of the refusal alone. The crate `scheduler_c` exports it for C programs.
// A number and no error: C is told one.
pub fn pigeoncouch_check_day(file: &[u8], letters: &[u8]) -> u32
    ensures { result ≡ number_of (first (day_rows file.now letters.now)) }
{
    match check_day(file, letters) {
        Ok(()) => 0,
        Err(fault) => u32::from(fault.refusal().number),
    }
}
