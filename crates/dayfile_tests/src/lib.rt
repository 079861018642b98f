//! Tests of the day file's check and view, on files that are built here and damaged in one or two places.

#![tactic(auto)]

#[cfg(test)]
mod build;
#[cfg(test)]
mod damage;
#[cfg(test)]
mod table;
#[cfg(test)]
mod view;
