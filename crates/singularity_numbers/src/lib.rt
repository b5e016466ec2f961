//! The Milnor number and the Tjurina number of a function at the origin, as problems: the dimensions that answer them are
//! these numbers.
//!
//! The words are those of Greuel and Pfister, A Singular Introduction to Commutative Algebra; the ideals are defined in
//! `sparse_poly/specs/Jacobian.antt`.
#![tactic(auto)]

mod partials;
mod problems;

pub use problems::{milnor_problem, tjurina_problem};
