//! Tests of rounding, the tally, the rule books and the bills; and a third rule book, written against the trait alone.

#![tactic(auto)]

#[cfg(test)]
mod amounts;
#[cfg(test)]
mod numbers;
mod pool;
