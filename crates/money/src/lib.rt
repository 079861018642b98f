//! Rounding to the fen, and the tally over records that have an amount.

#![tactic(auto)]

mod amounts;
mod rounding;
mod tallies;

pub use rounding::{MICRO_PER_FEN, rounded_quotient, to_fen};
pub use tallies::{Amount, tally};
