ghost use Rattle.market.specs.Choices.{chosen};
ghost use Rattle.market.specs.declared.either.Either.TheVariants.{First, Second};

use crate::book::RuleBook;
use market::{Either, Line, Side, UnifiedPrices};

/// One of two rule books is a rule book.
// The methods are no twins: each asks another method of the book.
impl<A: RuleBook, B: RuleBook> RuleBook for Either<A, B> {
    ghost contract = { chosen A.RuleBook.contract B.RuleBook.contract };

    ghost spot = { chosen A.RuleBook.spot B.RuleBook.spot };

    ghost difference = { chosen A.RuleBook.difference B.RuleBook.difference };

    ghost mismatch = { chosen A.RuleBook.mismatch B.RuleBook.mismatch };

    ghost opposite = { elim [ First b ↦ A.RuleBook.opposite b | Second b ↦ B.RuleBook.opposite b ] };

    ghost splits = { elim [ First b ↦ A.RuleBook.splits b | Second b ↦ B.RuleBook.splits b ] };

    ghost contracts = { elim [ First b ↦ A.RuleBook.contracts b | Second b ↦ B.RuleBook.contracts b ] };

    ghost spots = { elim [ First b ↦ A.RuleBook.spots b | Second b ↦ B.RuleBook.spots b ] };

    ghost differences = { elim [ First b ↦ A.RuleBook.differences b | Second b ↦ B.RuleBook.differences b ] };

    ghost mismatches = { elim [ First b ↦ A.RuleBook.mismatches b | Second b ↦ B.RuleBook.mismatches b ] };

    fn contract_charge(&self, side: Side, kwh: i64, price: i64, unified: UnifiedPrices) -> i64 {
        match self {
            Either::First(book) => book.contract_charge(side, kwh, price, unified),
            Either::Second(book) => book.contract_charge(side, kwh, price, unified),
        }
    }

    fn spot_charge(&self, side: Side, line: Line, unified: UnifiedPrices) -> i64 {
        match self {
            Either::First(book) => book.spot_charge(side, line, unified),
            Either::Second(book) => book.spot_charge(side, line, unified),
        }
    }

    fn difference_part(&self, side: Side, line: Line, unified: UnifiedPrices) -> i64 {
        match self {
            Either::First(book) => book.difference_part(side, line, unified),
            Either::Second(book) => book.difference_part(side, line, unified),
        }
    }

    fn mismatch_part(&self, side: Side, line: Line, unified: UnifiedPrices) -> i64 {
        match self {
            Either::First(book) => book.mismatch_part(side, line, unified),
            Either::Second(book) => book.mismatch_part(side, line, unified),
        }
    }
}
