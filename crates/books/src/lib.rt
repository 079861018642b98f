//! Rule books: what contracts and hours cost.

#![tactic(auto)]

mod book;
mod either;
mod three_part;
mod two_part;
mod worth;

pub use book::RuleBook;
pub use three_part::ThreePart;
pub use two_part::TwoPart;
