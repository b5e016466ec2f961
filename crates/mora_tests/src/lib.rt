//! Tests of the rooms that stand on the laws of Mora's normal form: worked examples, each public call once with ample memory.
//!
//! They stand in a crate of their own, since a crate that has tests is proved a second time with them.
#![tactic(auto)]

#[cfg(test)]
mod bases;
#[cfg(test)]
mod build;
#[cfg(test)]
mod choices;
#[cfg(test)]
mod criteria;
#[cfg(test)]
mod jacobian;
#[cfg(test)]
mod one_worker;
#[cfg(test)]
mod problems;
#[cfg(test)]
mod rows;
#[cfg(test)]
mod runs;
#[cfg(test)]
mod tickets;
#[cfg(test)]
mod trial;
