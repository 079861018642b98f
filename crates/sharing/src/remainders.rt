ghost use Rattle.std.specs.Prelude.{◌≡◌, ◌+◌, ◌-◌, ◌^◌, ◌<◌, length, sum};
ghost use Rattle.std.proofs.Common.{◌∙◌, arith};
ghost use Rattle.sharing.specs.AsGiven.{as_given};
ghost use Rattle.sharing.specs.Limits.{Shareable};
ghost use Rattle.sharing.specs.LargestRemainders.{floors, remainders, first_largest, hand_out, largest_remainder_shares, ServedFirst};
ghost use Rattle.sharing.specs.Counting.{as_given_length, as_given_sum, as_given_modest};
ghost use Rattle.sharing.specs.Handing.{largest_length, largest_adds, largest_near};

use crate::rule::SharingRule;
use crate::weights::{Counted, Given};
use market::MAX_PARTIES;

// The first place where the largest number stands.
fn first_largest(numbers: &[u64]) -> usize
    requires { 0 < length numbers.now }
    ensures within { result < length numbers.now }
    ensures value { result ≡ first_largest numbers.now }
{
    let mut first = 0;
    // beside the number that stands there, not a copy of it: with a copy, numbers that are all equal take half as long again
    for (place, number) in numbers.iter().enumerate() {
        if *number > numbers[first] {
            first = place;
        }
    }
    first
}

// Writes each party's part of the fund rounded down, and what that takes from it. What is left of the fund.
fn round_down(counted: &Counted, fund: u64, out: &mut [u64], rest: &mut [u64]) -> u64
    requires fund { Shareable fund counted.now }
    requires room { length out.old ≡ length counted.now }
    requires space { length rest.old ≡ length counted.now }
    ensures floors { out.new ≡ floors counted.now fund }
    ensures rest { rest.new ≡ remainders counted.now fund }
    ensures left { result ≡ fund - sum (floors counted.now fund) }
{
    let total = counted.total();
    let mut left = fund;
    // one loop, since one division gives both; the remainders by index: of a `zip` of two `iter_mut` the proof has no name for what is written
    for (party, share) in out.iter_mut().enumerate() {
        let part = fund * counted.weight(party);
        *share = part / total;
        rest[party] = part % total;
        left -= *share;
    }
    left
}

// Hands out what is left: one fen at a time to the largest remainder that has none yet.
// Remainders and shares stay two lists: of a list of pairs the shares would have to be copied out again for the caller.
fn hand_out(left: u64, rest: &mut [u64], out: &mut [u64])
    requires some { 0 < length rest.old }
    requires room { length out.old ≡ length rest.old }
    requires fits { sum out.old + left < 2 ^ 64 }
    ensures { out.new ≡ hand_out left rest.old out.old }
{
    for _served in 0..left {
        let party = first_largest(rest);
        out[party] += 1;
        rest[party] = 0;
    }
}

/// A party gets its part of the fund rounded down, and one fen more if its remainder is among the largest.
#[derive(Clone, Copy)]
pub struct LargestRemainder;

impl SharingRule for LargestRemainder {
    ghost counted = { λ _ given. as_given given };

    ghost shares = { λ _ given fund. largest_remainder_shares (as_given given) fund };

    ghost aligned = { λ s given w. as_given_length given };

    ghost weighs = { λ s given w. as_given_sum given w.some };

    ghost modest = { λ s given p w l. as_given_modest given p l };

    ghost complete = { λ s given fund w f. largest_length (as_given given) fund (as_given_sum given w.some) ∙ as_given_length given };

    ghost adds = { λ s given fund w f. largest_adds (as_given given) fund (as_given_sum given w.some) };

    ghost upper = { λ s given fund p w f l. (largest_near (as_given given) fund p (as_given_sum given w.some) (omega (arith, as_given_length given))).0 };

    ghost lower = { λ s given fund p w f l. (largest_near (as_given given) fund p (as_given_sum given w.some) (omega (arith, as_given_length given))).1 };

    fn counted(&self, given: &Given, party: usize) -> u64 {
        Counted::of(given).weight(party)
    }

    fn share(&self, given: &Given, fund: u64, party: usize) -> u64 {
        // as many places as there may be parties, since there is no heap here
        let mut shares = [0; MAX_PARTIES];
        let shares = &mut shares[..given.weights.len()];
        self.share_all(given, fund, shares);
        shares[party]
    }

    // Writes each part rounded down, and one fen more to the largest remainders while any is left.
    fn share_all(&self, given: &Given, fund: u64, out: &mut [u64])
        requires fund { Shareable fund (as_given given.now) }
        requires room { length out.old ≡ length given.now }
        ensures shares { out.new ≡ largest_remainder_shares (as_given given.now) fund }
        ensures served { ServedFirst (as_given given.now) fund out.new }
    {
        let counted = Counted::of(given);
        // as many places as there may be parties, since there is no heap here
        let mut rest = [0; MAX_PARTIES];
        let rest = &mut rest[..given.weights.len()];
        let left = round_down(&counted, fund, out, rest);
        hand_out(left, rest, out);
    }
}
