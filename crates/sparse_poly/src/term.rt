//! One term of a polynomial.

use local_order::Mono;

/// A monomial and its coefficient.
#[derive(Clone, Copy)]
pub struct PolyTerm {
    pub mono: Mono,
    pub coef: u32,
}
