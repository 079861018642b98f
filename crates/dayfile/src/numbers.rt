ghost use Rattle.std.specs.Prelude.{◌≡◌, ◌^◌, ◌<◌, [], ◌∷◌};
ghost use Rattle.std.specs.Result.{result_err};
ghost use Rattle.faults.specs.Rows.{first};
ghost use Rattle.dayfile.specs.Records.{quantity_rows, price_rows, price_row};

use crate::bytes::i64_at;
use faults::RecordFault;
use market::{Side, beyond_day_ahead, beyond_metered, beyond_price};

/// A line's two quantities within their limits, or refusal 16.
pub(crate) fn check_quantities(file: &[u8], side: Side, at: usize) -> Result<(), RecordFault>
    requires { at < 2 ^ 60 }
    ensures { result_err result ≡ first (quantity_rows file.now side at) }
{
    if beyond_day_ahead(i64_at(file, at)) {
        return Err(RecordFault::BeyondLimits(at));
    }
    if beyond_metered(side, i64_at(file, at + 4)) {
        return Err(RecordFault::BeyondLimits(at + 4));
    }
    Ok(())
}

/// A price that its side allows: refusal 16 for a seller's, 17 for a buyer's.
fn check_price(file: &[u8], side: Side, at: usize) -> Result<(), RecordFault>
    requires { at < 2 ^ 61 }
    ensures { result_err result ≡ first (price_row file.now side at ∷ []) }
{
    let mil = i64_at(file, at);
    match side {
        Side::Seller if beyond_price(mil) => Err(RecordFault::BeyondLimits(at)),
        Side::Buyer if mil != 0 => Err(RecordFault::BuyerPrice(at)),
        _ => Ok(()),
    }
}

/// A line's two prices.
pub(crate) fn check_prices(file: &[u8], side: Side, at: usize) -> Result<(), RecordFault>
    requires { at < 2 ^ 60 }
    ensures { result_err result ≡ first (price_rows file.now side at) }
{
    check_price(file, side, at)?;
    check_price(file, side, at + 4)
}
