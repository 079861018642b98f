ghost use Rattle.market.specs.Choices.{chosen};
ghost use Rattle.market.specs.declared.either.Either.TheVariants.{First, Second};

use crate::rule::SharingRule;
use crate::weights::Given;
use market::Either;

/// One of two sharing rules is a sharing rule.
// The methods are no twins: each asks another method of the rule.
impl<A: SharingRule, B: SharingRule> SharingRule for Either<A, B> {
    ghost counted = { chosen A.SharingRule.counted B.SharingRule.counted };

    ghost shares = { chosen A.SharingRule.shares B.SharingRule.shares };

    ghost aligned = { elim [
      | First a ↦ λ given w. A.SharingRule.aligned a given w
      | Second b ↦ λ given w. B.SharingRule.aligned b given w
    ] };

    ghost weighs = { elim [
      | First a ↦ λ given w. A.SharingRule.weighs a given w
      | Second b ↦ λ given w. B.SharingRule.weighs b given w
    ] };

    ghost modest = { elim [
      | First a ↦ λ given party w l. A.SharingRule.modest a given party w l
      | Second b ↦ λ given party w l. B.SharingRule.modest b given party w l
    ] };

    ghost complete = { elim [
      | First a ↦ λ given fund w f. A.SharingRule.complete a given fund w f
      | Second b ↦ λ given fund w f. B.SharingRule.complete b given fund w f
    ] };

    ghost adds = { elim [
      | First a ↦ λ given fund w f. A.SharingRule.adds a given fund w f
      | Second b ↦ λ given fund w f. B.SharingRule.adds b given fund w f
    ] };

    ghost upper = { elim [
      | First a ↦ λ given fund party w f l. A.SharingRule.upper a given fund party w f l
      | Second b ↦ λ given fund party w f l. B.SharingRule.upper b given fund party w f l
    ] };

    ghost lower = { elim [
      | First a ↦ λ given fund party w f l. A.SharingRule.lower a given fund party w f l
      | Second b ↦ λ given fund party w f l. B.SharingRule.lower b given fund party w f l
    ] };

    fn counted(&self, given: &Given, party: usize) -> u64 {
        match self {
            Either::First(a) => a.counted(given, party),
            Either::Second(b) => b.counted(given, party),
        }
    }

    fn share(&self, given: &Given, fund: u64, party: usize) -> u64 {
        match self {
            Either::First(a) => a.share(given, fund, party),
            Either::Second(b) => b.share(given, fund, party),
        }
    }

    fn share_all(&self, given: &Given, fund: u64, out: &mut [u64]) {
        match self {
            Either::First(a) => a.share_all(given, fund, out),
            Either::Second(b) => b.share_all(given, fund, out),
        }
    }
}
