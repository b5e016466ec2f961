//! What the definitions of ideals determine: one reduced basis, one staircase, one first missing monomial,
//! and what these say of the ideal. And the staircase of leads, by the ranks of monomials.
#![tactic(auto)]

pub mod laws;
mod pick;
mod ranks;
mod stair;

pub use ranks::Ranks;
pub use stair::Stair;
