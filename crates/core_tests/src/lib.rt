//! Tests of the machine of several workers: a schedule event by event, and random schedules.
//!
//! They stand in a crate of their own, as those of `mora_tests` do.
#![tactic(auto)]

#[cfg(test)]
mod dice;
#[cfg(test)]
mod drawn;
#[cfg(test)]
mod problems;
#[cfg(test)]
mod racing;
#[cfg(test)]
mod trial;
#[cfg(test)]
mod watched;
