//! The unified prices of a day's hours.

#![tactic(auto)]

mod borrowing;
mod days;
mod hours;
mod kinds;
mod table;

pub use kinds::{HourPrice, Market};
pub use table::{hour_price, price_pair, price_table};
