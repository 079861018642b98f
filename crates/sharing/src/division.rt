ghost use Rattle.std.specs.Prelude.{◌≡◌, ◌<◌, ◌≤◌, length, map, IfOk, None, sum, OnOk, unsigned_abs};
ghost use Rattle.std.specs.Result.{result_err};
ghost use Rattle.sharing.specs.Divisions.{unweighable, unshareable, signed_as, signed_shares, part_of, AddUp, NearParts};
ghost use Rattle.sharing.specs.Limits.{Weights, Shareable, most_parties, most_product};

use crate::limits::MOST_PRODUCT;
use crate::rule::SharingRule;
use crate::weights::Given;
use market::MAX_PARTIES;

/// Why a fund is not shared.
#[derive(Clone, Copy, Debug, PartialEq, Eq)]
pub enum Unshareable {
    /// The parties are not 1 to 64.
    PartyCount,
    /// The weight of this party is above 2,976,000,000.
    Weight(usize),
    /// The fund's size times the total of the counted weights is above 9 × 10^18.
    Product,
}

/// A party's exact part of a fund's size: its counted weight, the total of all of them, and the size times the weight divided by
/// the total, as a whole number and what is left.
#[derive(Clone, Copy, Debug, PartialEq, Eq)]
pub struct ExactPart {
    pub weight: u64,
    pub total: u64,
    pub whole: u64,
    pub rest: u64,
}

// The counted weights of all parties, added up.
fn counted_total<R: SharingRule>(rule: &R, given: &Given) -> u64
    ensures value { result ≡ sum (R.SharingRule.counted rule.now given.now) }
    ensures some { 0 < result }
    ensures weights { Weights given.now }
{
    let parties = 0..given.weights.len();
    parties.map(|party| rule.counted(given, party)).sum()
}

// Refuses a fund that is too large for the weights that count. Their total.
fn check_fund<R: SharingRule>(rule: &R, given: &Given, size: u64) -> Result<u64, Unshareable>
    ensures refusal { result_err result ≡ unshareable given.now (R.SharingRule.counted rule.now given.now) size }
    ensures total { IfOk result (λ total. total ≡ sum (R.SharingRule.counted rule.now given.now)) }
    ensures some { IfOk result (λ total. 0 < total) }
    ensures fund { OnOk result (Shareable size (R.SharingRule.counted rule.now given.now)) }
{
    let total = counted_total(rule, given);
    if size > MOST_PRODUCT / total {
        return Err(Unshareable::Product);
    }
    Ok(total)
}

// A share of this size: negative where the fund is.
fn signed_share(fund: i64, size: u64) -> i64
    requires { size ≤ most_product }
    ensures { result ≡ signed_as fund size }
{
    let share = size as i64;
    if fund < 0 { -share } else { share }
}

// Writes the shares of these sizes.
// The sizes by index: of a `zip` of `iter_mut` the proof has no name for what is written.
fn write_signed(fund: i64, sizes: &[u64], shares: &mut [i64])
    requires room { length shares.old ≡ length sizes.now }
    requires small { sum sizes.now ≤ most_product }
    ensures { shares.new ≡ map (signed_as fund) sizes.now }
{
    for (party, share) in shares.iter_mut().enumerate() {
        *share = signed_share(fund, sizes[party]);
    }
}

/// Divides a fund among parties by a rule and a given weight for each. The shares of a negative fund are those of its size, negated; past the last party
/// there stand zeros. The shares add up to the fund, and each is less than one fen away from the party's exact part.
pub fn divide<R: SharingRule>(
    rule: &R,
    given: &[u64],
    fund: i64,
) -> Result<[i64; MAX_PARTIES], Unshareable>
    ensures refusal { result_err result ≡ unshareable given.now (R.SharingRule.counted rule.now given.now) (unsigned_abs fund) }
    ensures shares { IfOk result (λ shares. shares ≡ signed_shares fund (R.SharingRule.shares rule.now given.now (unsigned_abs fund))) }
    ensures adds { IfOk result (AddUp (length given.now) fund) }
    ensures near { IfOk result (NearParts (R.SharingRule.counted rule.now given.now) fund) }
{
    let given = Given::new(given)?;
    let size = fund.unsigned_abs();
    check_fund(rule, &given, size)?;
    // as many places as there may be parties, since there is no heap here
    let mut sizes = [0; MAX_PARTIES];
    let sizes = &mut sizes[..given.weights.len()];
    rule.share_all(&given, size, sizes);
    let mut shares = [0; MAX_PARTIES];
    write_signed(fund, sizes, &mut shares[..given.weights.len()]);
    Ok(shares)
}

/// A party's exact part of a fund's size, or none where the fund is not shared or there is no such party.
pub fn exact_part<R: SharingRule>(
    rule: &R,
    given: &[u64],
    fund: i64,
    party: usize,
) -> Option<ExactPart>
    ensures { result ≡ part_of given.now (R.SharingRule.counted rule.now given.now) (unsigned_abs fund) party }
{
    let given = Given::new(given).ok()?;
    let size = fund.unsigned_abs();
    let total = check_fund(rule, &given, size).ok()?;
    if party >= given.weights.len() {
        return None;
    }
    let weight = rule.counted(&given, party);
    let part = size * weight;
    Some(ExactPart {
        weight,
        total,
        whole: part / total,
        rest: part % total,
    })
}
