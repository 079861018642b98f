//! Tests of funds divided among parties; and a third sharing rule, written against the trait alone.

#![tactic(auto)]

#[cfg(test)]
mod answers;
#[cfg(test)]
mod choices;
mod equal;
#[cfg(test)]
mod figures;
#[cfg(test)]
mod limits;
#[cfg(test)]
mod parts;
