//! Tests of a day's settlement, on days that are worked out by hand.

#![tactic(auto)]

#[cfg(test)]
mod days;
#[cfg(test)]
mod refused;
