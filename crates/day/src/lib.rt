//! One day settled: charges and funds.

#![tactic(auto)]

mod contracts;
mod funds;
mod priced;
mod settle;
mod sums;

pub use funds::Funds;
pub use settle::settle_day;
