//! The loop in which runs spend their time: a multiple of one row of residues subtracted from another, lane by lane.
#![tactic(auto)]

mod factor;
mod kernel;

pub use kernel::update;
