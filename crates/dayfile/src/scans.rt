ghost use Rattle.std.specs.Prelude.{◌≡◌, ℕ, ◌<◌, Bool, List};
ghost use Rattle.std.specs.Result.{result_err};
ghost use Rattle.faults.specs.Rows.{first, rows_below};
ghost use Rattle.faults.specs.declared.causes.RecordFault.{RecordFault};
ghost use Rattle.dayfile.specs.Scans.{AnswerRows};

use faults::RecordFault;

/// The items of a section, in order: the first fault that the check of an item answers.
pub(crate) fn scan<F: Fn(usize) -> Result<(), RecordFault>>(
    items: usize,
    check: F,
) -> Result<(), RecordFault>
    requires { (item : ℕ) → item < items → F.pre check item }
    ensures { (rows : ℕ → List (RecordFault × Bool)) → AnswerRows (F.post check) items rows → result_err result ≡ first (rows_below rows items) }
{
    for item in 0..items {
        check(item)?;
    }
    Ok(())
}
