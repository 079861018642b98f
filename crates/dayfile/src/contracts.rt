ghost use Rattle.std.specs.Prelude.{◌≡◌, ◌+◌, ◌^◌, ◌<◌, ◌&&◌, length, nat_lt, slice_index_or};
ghost use Rattle.std.specs.Result.{result_err};
ghost use Rattle.faults.specs.Rows.{first};
ghost use Rattle.dayfile.specs.Bytes.{byte_at};
ghost use Rattle.dayfile.specs.Records.{contract_in, contract_row, is_side, wrong_terms};
ghost use Rattle.market.specs.declared.kinds.Side.TheVariants.{Seller};

use crate::bytes::{bytes_at, i64_at, u32_at};
use faults::RecordFault;
use market::{Contract, MAX_KWH, Side, beyond_price};

/// A contract record taken apart: the contract, and the byte that is to be 0.
fn taken_apart(bytes: &[u8; 12]) -> (Contract, u8)
    ensures { (result.0 ≡ contract_in bytes.now 0) × (result.1 ≡ byte_at bytes.now 3) }
{
    // the array's slice, whose other arm cannot be reached: of an array itself taken apart, by value or reference, Rattle proves no `rest`
    let [seller, buyer, hour, zero, rest @ ..] = &bytes[..] else {
        unreachable()
    };
    let contract = Contract {
        seller: *seller,
        buyer: *buyer,
        hour: *hour,
        kwh: i64::from(u32_at(rest, 0)),
        price: i64_at(rest, 4),
    };
    (contract, *zero)
}

/// The contract at an offset and the byte of its record that is to be 0.
pub(crate) fn contract_at(file: &[u8], at: usize) -> (Contract, u8)
    requires { at < 2 ^ 60 }
    ensures { (result.0 ≡ contract_in file.now at) × (result.1 ≡ byte_at file.now (at + 3)) }
{
    taken_apart(&bytes_at(file, at))
}

/// Whether a party is there and is of a side.
fn is_on(sides: &[Side], party: u8, side: Side) -> bool
    ensures { result ≡ (nat_lt party (length sides.now) && is_side side (slice_index_or sides.now party Seller)) }
{
    sides.get(usize::from(party)) == Some(&side)
}

/// Whether a contract's hour, energy or price is beyond its limits.
// By comparisons, in the order of the definition: `contains` would say no less.
fn wrong_terms(contract: Contract) -> bool
    ensures { result ≡ wrong_terms contract }
{
    let Contract {
        hour,
        kwh,
        price,
        ..
    } = contract;
    hour < 1 || 24 < hour || kwh < 1 || MAX_KWH < kwh || beyond_price(price)
}

/// A contract that keeps every rule, or refusal 18.
pub(crate) fn check_contract(file: &[u8], sides: &[Side], at: usize) -> Result<(), RecordFault>
    requires { at < 2 ^ 60 }
    ensures { result_err result ≡ first (contract_row file.now sides.now at) }
{
    let (contract, zero) = contract_at(file, at);
    let parties = is_on(sides, contract.seller, Side::Seller)
        && is_on(sides, contract.buyer, Side::Buyer);
    if !parties || zero != 0 || wrong_terms(contract) {
        return Err(RecordFault::Contract(at));
    }
    Ok(())
}
