ghost use Rattle.sharing.specs.AsGiven.{as_given};
ghost use Rattle.sharing.specs.RunningShares.{running_shares};
ghost use Rattle.sharing.specs.Counting.{as_given_length, as_given_sum, as_given_modest};
ghost use Rattle.std.proofs.Common.{◌∙◌, arith};
ghost use Rattle.sharing.specs.Telescoping.{running_length, running_adds, running_near};

use crate::rule::SharingRule;
use crate::weights::{Counted, Given};

/// A party gets what the parties up to and with it get together, their part of the fund rounded down, less what those before it get together.
#[derive(Clone, Copy)]
pub struct Running;

impl SharingRule for Running {
    ghost counted = { λ _ given. as_given given };

    ghost shares = { λ _ given fund. running_shares (as_given given) fund };

    ghost aligned = { λ s given w. as_given_length given };

    ghost weighs = { λ s given w. as_given_sum given w.some };

    ghost modest = { λ s given p w l. as_given_modest given p l };

    ghost complete = { λ s given fund w f. running_length (as_given given) fund ∙ as_given_length given };

    ghost adds = { λ s given fund w f. running_adds (as_given given) fund (as_given_sum given w.some) };

    ghost upper = { λ s given fund p w f l. (running_near (as_given given) fund p (as_given_sum given w.some) (omega (arith, as_given_length given))).0 };

    ghost lower = { λ s given fund p w f l. (running_near (as_given given) fund p (as_given_sum given w.some) (omega (arith, as_given_length given))).1 };

    // as of LargestRemainder: a member and a method cannot be written once for two types, so both are one call
    fn counted(&self, given: &Given, party: usize) -> u64 {
        Counted::of(given).weight(party)
    }

    fn share(&self, given: &Given, fund: u64, party: usize) -> u64 {
        let counted = Counted::of(given);
        let total = counted.total();
        let before = fund * counted.up_to(party) / total;
        let with = fund * counted.up_to(party + 1) / total;
        with - before
    }

    fn share_all(&self, given: &Given, fund: u64, out: &mut [u64]) {
        let counted = Counted::of(given);
        let total = counted.total();
        let mut running = 0;
        let mut handed_out = 0;
        for (party, share) in out.iter_mut().enumerate() {
            running += counted.weight(party);
            let up_to = fund * running / total;
            *share = up_to - handed_out;
            handed_out = up_to;
        }
    }
}
