//! What a day's file adds up to: a party's energy of the day, and the hours in which no seller ran.

#![tactic(auto)]

mod energy;
mod sums;

pub use energy::Energy;
pub use sums::{energy_of, seller_ran};
