//! Tests of the shared board.
//!
//! They stand in a crate of their own, since a crate that has tests is proved a second time with them.
#![tactic(auto)]

#[cfg(test)]
mod build;
#[cfg(test)]
mod cubics;
#[cfg(test)]
mod curve;
// definitions name the desk, and they are read without the tests too
mod desk;
#[cfg(test)]
mod late_tickets;
#[cfg(test)]
mod seats;
#[cfg(test)]
mod threads;
#[cfg(test)]
mod two_workers;
