//! Polynomials: their making and reading.

ghost use Rattle.std.specs.Prelude.{◌≡◌, ℕ, ◌<◌, ◌≤◌, ◌↔◌, [], length, IfOk, IsTrue, slice_get, Some};
ghost use Rattle.local_order.specs.Limits.{max_variables};
ghost use Rattle.sparse_poly.specs.Poly.{IsCanonical, IsIn, IsSorted};
ghost use Rattle.sparse_poly.specs.Canonical.{canonical};

use crate::sums::sum_of;
use crate::term::PolyTerm;
use prime_field::Field;
use std::alloc::{AllocError, Global};
use std::marker::Model;

/// A polynomial in one to eight variables, with coefficients modulo a prime.
/// A contract sees the number of its variables and its terms, the greatest first in the order ds, none with coefficient 0.
#[derive(Drop)]
pub struct Poly {
    pub(crate) n: u32,
    pub(crate) terms: Vec<PolyTerm>,
}

impl Model for Poly {
    ghost use Rattle.std.specs.Prelude.{◌≤◌};
    ghost use Rattle.local_order.specs.Limits.{max_variables};
    ghost use Rattle.sparse_poly.specs.Poly.{Polynomial, IsSorted};

    ghost Value = { Polynomial };

    ghost view = { λ f. record { n = f.n; terms = f.terms.items } };

    ghost invariant = { λ f. (1 ≤ f.n) × (f.n ≤ max_variables) × IsSorted f.n f.terms.items };
}

impl Poly {
    /// The polynomial 0 in `n` variables.
    pub fn zero(alloc: Global, n: u32) -> Poly
        requires some { 1 ≤ n }
        requires few { n ≤ max_variables }
        ensures { result ≡ record { n = n; terms = [] } }
    {
        Poly {
            n,
            terms: Vec::new(alloc),
        }
    }

    /// The sum of these terms in `n` variables, which may come in any order, with equal monomials and with any coefficients.
    pub fn from_terms(
        alloc: Global,
        field: &Field,
        n: u32,
        terms: Vec<PolyTerm>,
    ) -> Result<Poly, AllocError>
        requires some { 1 ≤ n }
        requires few { n ≤ max_variables }
        requires own { IsIn n terms.items }
        ensures value { IfOk result (λ f. f ≡ record { n = n; terms = canonical field.now terms.items }) }
        ensures canonical { IfOk result (λ f. IsCanonical field.now f.n f.terms) }
    {
        let terms = sum_of(alloc, field, &terms)?;
        Ok(Poly { n, terms })
    }

    /// The number of variables.
    pub fn n(&self) -> u32
        ensures value { result ≡ self.now.n }
        ensures some { 1 ≤ result }
        ensures few { result ≤ 8 }
    {
        self.n
    }

    /// The number of terms.
    pub fn len(&self) -> usize
        ensures { result ≡ length self.now.terms }
    {
        self.terms.len()
    }

    /// The term at a place, that of the leading monomial being at 0.
    pub fn get(&self, i: usize) -> PolyTerm
        requires { i < length self.now.terms }
        ensures { slice_get self.now.terms i ≡ Some result }
    {
        self.terms[i]
    }

    /// The terms, the greatest first.
    pub fn terms(&self) -> &[PolyTerm]
        ensures value { result.now ≡ self.now.terms }
        ensures sorted { IsSorted self.now.n self.now.terms }
    {
        &self.terms
    }

    /// Whether the polynomial is 0.
    pub fn is_zero(&self) -> bool
        ensures { IsTrue result ↔ (self.now.terms ≡ []) }
    {
        self.terms.is_empty()
    }

    /// A copy.
    pub fn copy(&self, alloc: Global) -> Result<Poly, AllocError>
        ensures { IfOk result (λ f. f ≡ self.now) }
    {
        let terms = Vec::from_slice(alloc, &self.terms)?;
        Ok(Poly { n: self.n, terms })
    }
}
