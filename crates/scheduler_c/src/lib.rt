//! The scheduler's check of a day's file for C programs, built as a static library.

#![tactic(auto)]

ghost use Rattle.std.specs.Prelude.{◌≡◌};
ghost use Rattle.faults.specs.Rows.{first};
ghost use Rattle.scheduler.specs.Check.{day_rows, number_of};

/// Why a file is refused for parties of these kind letters: 0 where it is not, else the number of the refusal.
// A number and no error: the C interface.
#[unsafe(no_mangle)]
pub extern "C" fn pigeoncouch_check_day(file: &[u8], letters: &[u8]) -> u32
    ensures { result ≡ number_of (first (day_rows file.now letters.now)) }
{
    scheduler::pigeoncouch_check_day(file, letters)
}
