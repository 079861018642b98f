//! Journal lines.

#![tactic(auto)]

mod journal;

pub use journal::{Cause, Entry};
