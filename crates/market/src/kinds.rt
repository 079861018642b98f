ghost use Rattle.std.specs.Prelude.{◌≤◌};

use crate::limits::MAX_PARTIES;

/// A party sells (a plant) or buys (a wholesale user or a retailer).
#[derive(Clone, Copy, Debug, PartialEq, Eq)]
pub enum Side {
    Seller,
    Buyer,
}

/// The sides of a month's parties, party 0 first: 1 to 64 of them.
// An array and a count: the library crates have no heap, and `Sides` is `Copy`, as an `ArrayVec` is not.
#[derive(Clone, Copy)]
pub struct Sides {
    pub(crate) count: usize,
    pub(crate) slots: [Side; MAX_PARTIES],
    ghost some: { 1 ≤ count },
    ghost few: { count ≤ 64 },
}
