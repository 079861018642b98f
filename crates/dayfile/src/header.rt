ghost use Rattle.std.specs.Prelude.{◌≡◌};
ghost use Rattle.std.specs.Result.{result_err};
ghost use Rattle.faults.specs.Rows.{first};
ghost use Rattle.dayfile.specs.Structure.{byte_row, header_rows};

use crate::bytes::byte_at;
use faults::FileFault;

/// Whether the header's byte at an offset is the one wanted there.
fn expect_byte(file: &[u8], at: usize, wanted: u8) -> Result<(), FileFault>
    ensures { result_err result ≡ first (byte_row file.now at wanted) }
{
    if byte_at(file, at) == wanted {
        Ok(())
    } else {
        Err(FileFault::WrongByte(at))
    }
}

/// The file's length and the fixed bytes of its header: refusals 11 and 12.
pub(crate) fn check_header(file: &[u8]) -> Result<(), FileFault>
    ensures { result_err result ≡ first (header_rows file.now) }
{
    if file.len() < 32 {
        return Err(FileFault::TooShort(file.len()));
    }
    expect_byte(file, 0, b'D')?;
    expect_byte(file, 1, b'A')?;
    expect_byte(file, 2, b'Y')?;
    expect_byte(file, 3, b'1')?;
    expect_byte(file, 6, 3)?;
    expect_byte(file, 7, 0)
}
