//! Arithmetic modulo a prime of a table.
#![tactic(auto)]

mod field;
pub mod laws;

pub use field::Field;
