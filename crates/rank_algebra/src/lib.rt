//! Linear algebra over ranks: polynomials cut beyond a degree as their coefficients by the ranks of the monomials,
//! combinations of them, plain division and the corner of leads. It knows of no order and no problem: what computes by
//! rank meets the laws of ranks.
#![tactic(auto)]

pub mod laws;
