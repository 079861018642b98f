//! The amounts of a party's hour under a rule book, and the bills of the two provinces' books by their own formulas.

#![tactic(auto)]

mod asking;
mod hours;
mod provinces;
mod words;

pub use asking::Beyond;
pub use hours::{HourAmounts, hour_amounts};
pub use provinces::{ProvincialBook, bill, three_part_bill, two_part_bill};
