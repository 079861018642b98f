//! The parties of a market, its records and the limits of its numbers.

#![tactic(auto)]

mod either;
mod kinds;
mod letters;
mod limits;
mod records;
mod words;

pub use either::Either;
pub use kinds::{Side, Sides};
pub use limits::{
    MAX_CONTRACTS, MAX_KWH, MAX_PARTIES, beyond_day_ahead, beyond_metered, beyond_price, kept,
};
pub use records::{Contract, Line, UnifiedPrices};
