//! Runs of Mora's normal form over rows: one step for each reading, with intermediates, in memory that is taken once.
//! The words are those of Greuel and Pfister, A Singular Introduction to Commutative Algebra.
#![tactic(auto)]

mod begin;
mod chosen;
mod draft;
mod entries;
mod mora;
mod reducers;
mod steps;

pub use mora::Mora;
