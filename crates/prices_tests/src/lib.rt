//! Tests of the unified prices, on days of a few hours.

#![tactic(auto)]

#[cfg(test)]
mod days;
#[cfg(test)]
mod refused;
