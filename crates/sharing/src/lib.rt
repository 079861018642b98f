//! A fund shared among parties by weight, to the fen.

#![tactic(auto)]

mod division;
mod either;
mod limits;
mod remainders;
mod rule;
mod running;
mod weights;
mod words;

pub use division::{ExactPart, Unshareable, divide, exact_part};
pub use remainders::LargestRemainder;
pub use rule::SharingRule;
pub use running::Running;
pub use weights::Given;
