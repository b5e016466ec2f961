//! The highest corner of leads in a local order, by the ranks of monomials of bounded degree.
#![tactic(auto)]

mod cover;
mod marks;

pub use cover::Cover;
