//! Numbers the monomials of bounded degree from the greatest in the order ds.
#![tactic(auto)]

mod build;
pub mod laws;
mod place;
mod table;

pub use table::{RankError, RankTable};
