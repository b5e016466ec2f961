//! Polynomials over the numbers modulo a prime, lists of them, and problems: ideals modulo a degree.
//! The words are those of Greuel and Pfister, A Singular Introduction to Commutative Algebra.
#![tactic(auto)]

pub mod laws;
mod letters;
mod monomials;
mod multiples;
mod parts;
mod poly;
mod polys;
mod problem;
mod products;
mod sums;
mod term;

pub use letters::Letters;
pub use poly::Poly;
pub use polys::Polys;
pub use problem::{MAX_GENERATORS, Problem};
pub use term::PolyTerm;
