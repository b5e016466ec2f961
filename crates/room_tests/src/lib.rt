//! Tests of the rooms below the reader of scripts and beside it: worked examples, each public call once with ample memory, and faults
//! one by one.
//!
//! They stand in a crate of their own, one file a room, since a crate that has tests is proved a second time with them.
#![tactic(auto)]

#[cfg(test)]
mod build;
#[cfg(test)]
mod corners;
#[cfg(test)]
mod entries;
#[cfg(test)]
mod lanes;
#[cfg(test)]
mod monomials;
#[cfg(test)]
mod numbers;
#[cfg(test)]
mod polynomials;
#[cfg(test)]
mod printed;
#[cfg(test)]
mod ranks;
#[cfg(test)]
mod rows;
#[cfg(test)]
mod sources;
#[cfg(test)]
mod staircases;
#[cfg(test)]
mod texts;
