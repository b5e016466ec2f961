//! Monomials in one to eight variables, and the local order ds.
#![tactic(auto)]

mod compare;
mod counting;
pub mod laws;
mod mono;
mod products;

pub use counting::{MAX_DEGREE, MAX_MONOMIALS, monomial_count};
pub use mono::{MAX_EXPONENT, MAX_VARIABLES, Mono};
