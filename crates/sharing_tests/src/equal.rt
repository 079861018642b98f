ghost use Rattle.sharing_tests.specs.EqualShares.{one_each, equal_shares};
ghost use Rattle.sharing_tests.specs.Equally.{ones_length, ones_sum, ones_at, equal_length, equal_adds, equal_near};
ghost use Rattle.std.proofs.Common.{arith};

use sharing::{Given, SharingRule};

/// Every party counts 1, whatever its weight: each gets the fund divided by their number, rounded down, and the first parties get a fen more while any is left.
#[derive(Clone, Copy)]
pub(crate) struct Equal;

impl SharingRule for Equal {
    ghost counted = { λ _ given. one_each given };

    ghost shares = { λ _ given fund. equal_shares given fund };

    ghost aligned = { λ s given w. ones_length given };

    ghost weighs = { λ s given w. omega (arith, ones_sum given, w.some) };

    ghost modest = { λ s given p w l. omega (arith, ones_at given p l) };

    ghost complete = { λ s given fund w f. equal_length given fund };

    ghost adds = { λ s given fund w f. equal_adds given fund w.some };

    ghost upper = { λ s given fund p w f l. (equal_near given fund p l).0 };

    ghost lower = { λ s given fund p w f l. (equal_near given fund p l).1 };

    fn counted(&self, given: &Given, party: usize) -> u64 {
        1
    }

    fn share(&self, given: &Given, fund: u64, party: usize) -> u64 {
        let parties = given.weights.len() as u64;
        let least = fund / parties;
        if (party as u64) < fund % parties {
            least + 1
        } else {
            least
        }
    }
}
