ghost use Rattle.std.specs.Prelude.{◌≡◌, ℕ, ◌<◌, ◌≤◌, max, List, length, sum, slice_index};
ghost use Rattle.sharing.specs.Limits.{Weights, Shareable};
ghost use Rattle.sharing.specs.Parts.{LessThanFenAbove, LessThanFenBelow};

use crate::weights::Given;

/// How a fund is shared among parties, by a given weight for each.
// That the fund fits and that there is room stay a `requires`: the one speaks of the rule, the other of the caller's slice, so a type would hold both.
pub trait SharingRule {
    // the weights that count, of all the given weights
    ghost counted: { Self → List ℕ → List ℕ };

    // all shares, of the given weights and the fund
    ghost shares: { Self → List ℕ → ℕ → List ℕ };

    /// The weight that counts for a party.
    fn counted(&self, given: &Given, party: usize) -> u64
        requires { party < length given.now }
        ensures { result ≡ slice_index (counted self.now given.now) party };

    /// A party's share of the fund.
    fn share(&self, given: &Given, fund: u64, party: usize) -> u64
        requires fund { Shareable fund (counted self.now given.now) }
        requires party { party < length given.now }
        ensures { result ≡ slice_index (shares self.now given.now fund) party };

    /// Writes every party's share.
    fn share_all(&self, given: &Given, fund: u64, out: &mut [u64])
        requires fund { Shareable fund (counted self.now given.now) }
        requires room { length out.old ≡ length given.now }
        ensures { out.new ≡ shares self.now given.now fund }
    {
        // a look at the weights, so that the proof of this body knows their limits
        let _ = &given.weights;
        for (party, share) in out.iter_mut().enumerate() {
            *share = self.share(given, fund, party);
        }
    }

    // each party has a counted weight
    ghost aligned: { (s : Self) (given : List ℕ) → Weights given → length (counted s given) ≡ length given };

    // some weight counts
    ghost weighs: { (s : Self) (given : List ℕ) → Weights given → 0 < sum (counted s given) };

    // no weight counts more than it is, but a weight of 0 may count 1
    ghost modest: { (s : Self) (given : List ℕ) (party : ℕ) → Weights given → party < length given → slice_index (counted s given) party ≤ max 1 (slice_index given party) };

    // each party has a share
    ghost complete: { (s : Self) (given : List ℕ) (fund : ℕ) → Weights given → Shareable fund (counted s given) → length (shares s given fund) ≡ length given };

    // the shares add up to the fund
    ghost adds: { (s : Self) (given : List ℕ) (fund : ℕ) → Weights given → Shareable fund (counted s given) → sum (shares s given fund) ≡ fund };

    // a share is less than one fen above its exact part of the fund
    ghost upper: { (s : Self) (given : List ℕ) (fund party : ℕ) → Weights given → Shareable fund (counted s given) → party < length given → LessThanFenAbove (counted s given) fund (shares s given fund) party };

    // and less than one fen below it
    ghost lower: { (s : Self) (given : List ℕ) (fund party : ℕ) → Weights given → Shareable fund (counted s given) → party < length given → LessThanFenBelow (counted s given) fund (shares s given fund) party };
}
