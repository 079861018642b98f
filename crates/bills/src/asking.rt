ghost use Rattle.std.specs.Prelude.{◌≡◌};
ghost use Rattle.std.specs.Result.{result_err};
ghost use Rattle.faults.specs.Rows.{first};
ghost use Rattle.bills.specs.Asking.{hour_rows, contract_row};

use market::{Contract, Line, UnifiedPrices, beyond_day_ahead, beyond_price};

/// What a rule book cannot be asked about: too many contracts, or the number that is beyond its limits. A contract is told
/// by its index.
#[derive(Clone, Copy, Debug, PartialEq, Eq)]
pub enum Beyond {
    ContractCount,
    DayAheadEnergy,
    MeteredEnergy,
    DayAheadPrice,
    RealTimePrice,
    DayAheadUnified,
    RealTimeUnified,
    ContractEnergy(usize),
    ContractPrice(usize),
}

// A row of the table is a test with its own fault: one helper for all, with `?`, would be no shorter.

/// Whether a party's hour can be asked about.
pub(crate) fn check_hour(line: Line, unified: UnifiedPrices) -> Result<(), Beyond>
    ensures { result_err result ≡ first (hour_rows line unified) }
{
    if beyond_day_ahead(line.day_ahead) {
        return Err(Beyond::DayAheadEnergy);
    }
    if beyond_day_ahead(line.metered) {
        return Err(Beyond::MeteredEnergy);
    }
    if beyond_price(line.day_ahead_price) {
        return Err(Beyond::DayAheadPrice);
    }
    if beyond_price(line.real_time_price) {
        return Err(Beyond::RealTimePrice);
    }
    if beyond_price(unified.day_ahead) {
        return Err(Beyond::DayAheadUnified);
    }
    if beyond_price(unified.real_time) {
        return Err(Beyond::RealTimeUnified);
    }
    Ok(())
}

/// Whether a contract can be asked about; `index` is where it stands among the contracts.
pub(crate) fn check_contract(contract: Contract, index: usize) -> Result<(), Beyond>
    ensures { result_err result ≡ first (contract_row contract index) }
{
    if beyond_day_ahead(contract.kwh) {
        return Err(Beyond::ContractEnergy(index));
    }
    if beyond_price(contract.price) {
        return Err(Beyond::ContractPrice(index));
    }
    Ok(())
}
