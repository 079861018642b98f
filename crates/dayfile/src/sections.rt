ghost use Rattle.std.specs.Prelude.{◌≡◌, ◌+◌, ◌≤◌, length, IfOk};
ghost use Rattle.std.specs.Result.{result_err};
ghost use Rattle.faults.specs.Rows.{first};
ghost use Rattle.dayfile.specs.Layouts.{pair_at, past_of, extent_of, layout_in, length_of};
ghost use Rattle.dayfile.specs.Structure.{earliest, order_row, length_row, section_rows};

use crate::bytes::{byte_at, u32_at};
use crate::parts::{Extent, Layout};
use faults::{FileFault, Section};

/// Where the header's pair of a section stands.
fn pair_at(section: Section) -> usize
    ensures { result ≡ pair_at section }
{
    match section {
        Section::Quantities => 8,
        Section::NodePrices => 16,
        Section::Contracts => 24,
    }
}

impl Extent {
    /// The offset just past the section.
    fn past(self) -> usize
        ensures { result ≡ past_of self }
    {
        self.offset as usize + self.length as usize
    }
}

/// The extent of a section that starts no earlier than it may and ends within the file, or refusal 13.
fn expect_order(file: &[u8], section: Section, start: usize) -> Result<Extent, FileFault>
    requires { start ≡ earliest file.now section }
    ensures fault { result_err result ≡ first (order_row file.now section) }
    ensures extent { IfOk result (λ e. e ≡ extent_of file.now section) }
{
    let at = pair_at(section);
    let extent = Extent {
        offset: u32_at(file, at),
        length: u32_at(file, at + 4),
    };
    if (extent.offset as usize) < start || file.len() < extent.past() {
        return Err(FileFault::OutOfOrder(section));
    }
    Ok(extent)
}

/// Whether a section has a length that the file's party count allows, or refusal 14.
fn expect_length(file: &[u8], section: Section, bytes: u32) -> Result<(), FileFault>
    requires { bytes ≡ length_of file.now section }
    ensures { result_err result ≡ first (length_row file.now section) }
{
    let wrong = match section {
        Section::Quantities | Section::NodePrices => bytes != 192 * u32::from(byte_at(file, 5)),
        Section::Contracts => bytes % 12 != 0 || 3072 < bytes,
    };
    if wrong {
        Err(FileFault::WrongLength(section))
    } else {
        Ok(())
    }
}

/// The layout of three sections in order and of the right lengths: refusals 13 and 14.
pub(crate) fn layout_of(file: &[u8]) -> Result<Layout, FileFault>
    ensures fault { result_err result ≡ first (section_rows file.now) }
    ensures layout { IfOk result (λ l. l ≡ layout_in file.now) }
{
    let quantities = expect_order(file, Section::Quantities, 32)?;
    let prices = expect_order(file, Section::NodePrices, quantities.past())?;
    let contracts = expect_order(file, Section::Contracts, prices.past())?;
    expect_length(file, Section::Quantities, quantities.length)?;
    expect_length(file, Section::NodePrices, prices.length)?;
    expect_length(file, Section::Contracts, contracts.length)?;
    Ok(Layout {
        quantities: quantities.offset,
        prices: prices.offset,
        contracts: contracts.offset,
        contract_count: contracts.length / 12,
    })
}
