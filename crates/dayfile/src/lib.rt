//! A day's file: its layout, the structural check (refusals 11 to 15), the check of its records (16 to 18) and the numbers of an accepted file.

#![tactic(auto)]

mod bytes;
mod check;
mod contracts;
mod file;
mod header;
mod numbers;
mod parts;
mod scans;
mod sections;
mod structure;
mod view;

pub use file::DayFile;
pub use market::{Contract, Line};
