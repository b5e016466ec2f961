//! Problems: generators of an ideal, to be taken modulo a degree.

ghost use Rattle.std.specs.Prelude.{◌≡◌, ◌↔◌, length, map, All, IfOk, IfSome, IfNone, IsTrue};
ghost use Rattle.sparse_poly.specs.Poly.{in_variables, HasDegreeAtMost, HasResidues, IsCanonical};
ghost use Rattle.sparse_poly.specs.Ideal.{IsGenerator, IsProblem};

use crate::poly::Poly;
use crate::polys::Polys;
use crate::term::PolyTerm;
use local_order::{MAX_DEGREE, MAX_MONOMIALS, MAX_VARIABLES, monomial_count};
use prime_field::Field;
use std::alloc::{AllocError, Global};
use std::marker::Model;

/// The greatest number of generators of a problem.
pub const MAX_GENERATORS: usize = 64;

/// Generators of an ideal in a ring of polynomials, and the degree beyond which everything is cut.
/// A contract sees the prime, the number of variables, the degree and the terms of each generator.
#[derive(Drop)]
pub struct Problem {
    field: Field,
    n: u32,
    d: u32,
    gens: Polys,
}

impl Model for Problem {
    ghost use Rattle.std.specs.Prelude.{◌≡◌, map, All};
    ghost use Rattle.sparse_poly.specs.Ideal.{Problem as IdealProblem, IsProblem};

    ghost Value = { IdealProblem };

    ghost view = { λ p. record { p = p.field; n = p.n; d = p.d; gens = map (λ f. f.terms) p.gens } };

    ghost invariant = { λ p. IsProblem (record { p = p.field; n = p.n; d = p.d; gens = map (λ f. f.terms) p.gens })
        × All (λ f. f.n ≡ p.n) p.gens };
}

impl Problem {
    /// The problem of these generators in `n` variables modulo degree `d` + 1.
    pub fn new(field: Field, n: u32, d: u32, gens: Polys) -> Problem
        requires problem { IsProblem (record { p = field; n = n; d = d; gens = map (λ f. f.terms) gens }) }
        requires variables { All (λ f. f.n ≡ n) gens }
        ensures { result ≡ record { p = field; n = n; d = d; gens = map (λ f. f.terms) gens } }
    {
        Problem { field, n, d, gens }
    }

    /// The same for values from outside: none where they are past the limits of a problem, or a generator is not in the ring
    /// or has a degree above `d`.
    pub fn checked(field: Field, n: u32, d: u32, gens: Polys) -> Option<Problem>
        ensures some { IfSome result (λ p. p ≡ record { p = field; n = n; d = d; gens = map (λ f. f.terms) gens }) }
        ensures none { IfNone result (¬ (IsProblem (record { p = field; n = n; d = d; gens = map (λ f. f.terms) gens })
            × All (λ f. f.n ≡ n) gens)) }
    {
        let _prime = field.prime();
        if n < 1 || n > MAX_VARIABLES as u32 || d < 1 || d > MAX_DEGREE {
            return None;
        }
        if monomial_count(n, d) > MAX_MONOMIALS || gens.len() > MAX_GENERATORS {
            return None;
        }
        if !are_generators(&field, n, d, gens.as_slice()) {
            return None;
        }
        Some(Problem { field, n, d, gens })
    }

    /// The field of the coefficients.
    pub fn field(&self) -> &Field
        ensures value { result.now ≡ self.now.p }
        ensures problem { IsProblem self.now }
    {
        &self.field
    }

    /// The number of variables.
    pub fn n(&self) -> u32
        ensures value { result ≡ self.now.n }
        ensures problem { IsProblem self.now }
    {
        self.n
    }

    /// The degree beyond which everything is cut.
    pub fn d(&self) -> u32
        ensures value { result ≡ self.now.d }
        ensures problem { IsProblem self.now }
    {
        self.d
    }

    /// The generators.
    pub fn gens(&self) -> &Polys
        ensures value { result.now ≡ map (in_variables self.now.n) self.now.gens }
        ensures problem { IsProblem self.now }
    {
        &self.gens
    }

    /// The number of generators, at most 64.
    pub fn generator_count(&self) -> u32
        ensures { result ≡ length self.now.gens }
    {
        self.gens.len() as u32
    }

    /// A copy.
    pub fn copy(&self, alloc: Global) -> Result<Problem, AllocError>
        ensures { IfOk result (λ p. p ≡ self.now) }
    {
        let gens = self.gens.copy(alloc)?;
        Ok(Problem {
            field: self.field,
            n: self.n,
            d: self.d,
            gens,
        })
    }
}

/// Whether these polynomials are in the ring in `n` variables, and of degree at most `d`.
fn are_generators(field: &Field, n: u32, d: u32, gens: &[Poly]) -> bool
    ensures { IsTrue result ↔ All (IsGenerator field.now n d) gens.now }
{
    gens.iter().all(|f| is_generator(field, n, d, f))
}

/// Whether a polynomial is.
fn is_generator(field: &Field, n: u32, d: u32, f: &Poly) -> bool
    ensures { IsTrue result ↔ IsGenerator field.now n d f.now }
{
    if f.n() != n || !is_canonical(f, field.prime()) {
        return false;
    }
    is_low(f, d)
}

/// Whether each coefficient is below a prime, so that the terms are canonical modulo it.
fn is_canonical(f: &Poly, prime: u32) -> bool
    ensures { IsTrue result ↔ IsCanonical prime f.now.n f.now.terms }
{
    let terms = f.terms();
    have_residues(terms, prime)
}

/// Whether each coefficient is below a prime.
fn have_residues(terms: &[PolyTerm], prime: u32) -> bool
    ensures { IsTrue result ↔ HasResidues prime terms.now }
{
    terms.iter().all(|t| t.coef < prime)
}

/// Whether each term has a degree of at most `d`.
fn is_low(f: &Poly, d: u32) -> bool
    ensures { IsTrue result ↔ HasDegreeAtMost d f.now.terms }
{
    f.terms().iter().all(|t| t.mono.degree() <= d)
}
