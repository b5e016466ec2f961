//! Sums of polynomials.

ghost use Rattle.std.specs.Prelude.{◌≡◌, ℕ, [], ◌++◌, ◌-◌, IfOk};
ghost use Rattle.sparse_poly.specs.Poly.{term_times, HasResidues, IsCanonical, IsIn};
ghost use Rattle.sparse_poly.specs.Canonical.{canonical};

use crate::multiples::{push_term, scaled};
use crate::poly::Poly;
use crate::term::PolyTerm;
use prime_field::Field;
use std::alloc::{AllocError, Global};
use std::cmp::Ordering;

impl Poly {
    /// The sum of the two.
    pub fn add(&self, alloc: Global, field: &Field, other: &Poly) -> Result<Poly, AllocError>
        requires own { HasResidues field.now self.now.terms }
        requires other { HasResidues field.now other.now.terms }
        requires one_n { other.now.n ≡ self.now.n }
        ensures value { IfOk result (λ f. f ≡ record {
          n = self.now.n;
          terms = canonical field.now (self.now.terms ++ other.now.terms);
        }) }
        ensures canonical { IfOk result (λ f. IsCanonical field.now f.n f.terms) }
    {
        let terms = merge(alloc, field, &self.terms, &other.terms)?;
        Ok(Poly { n: self.n, terms })
    }

    /// The difference of the two.
    pub fn sub(&self, alloc: Global, field: &Field, other: &Poly) -> Result<Poly, AllocError>
        requires own { HasResidues field.now self.now.terms }
        requires other { HasResidues field.now other.now.terms }
        requires one_n { other.now.n ≡ self.now.n }
        ensures value { IfOk result (λ f. f ≡ record {
          n = self.now.n;
          terms = canonical field.now (self.now.terms ++ term_times (field.now - 1) [] other.now.terms);
        }) }
        ensures canonical { IfOk result (λ f. IsCanonical field.now f.n f.terms) }
    {
        let opposite = scaled(alloc, field, field.prime() - 1, &other.terms)?;
        let terms = merge(alloc, field, &self.terms, &opposite)?;
        Ok(Poly { n: self.n, terms })
    }
}

/// The terms of a sum of terms: the sum of its two halves.
pub(crate) fn sum_of(
    alloc: Global,
    field: &Field,
    terms: &[PolyTerm],
) -> Result<Vec<PolyTerm>, AllocError>
    requires { (n : ℕ) × IsIn n terms.now }
    ensures value { IfOk result (λ v. v.items ≡ canonical field.now terms.now) }
    ensures canonical { IfOk result (λ v. (n : ℕ) → IsIn n terms.now → IsCanonical field.now n v.items) }
{
    let prime = field.prime();
    match terms {
        [] => Ok(Vec::new(alloc)),
        [term] => {
            let mut sum = Vec::new(alloc);
            push_term(&mut sum, term.mono, term.coef % prime)?;
            Ok(sum)
        }
        _ => {
            let (front, back) = terms.split_at(terms.len() / 2);
            let front = sum_of(alloc, field, front)?;
            let back = sum_of(alloc, field, back)?;
            merge(alloc, field, &front, &back)
        }
    }
}

/// The terms of the sum of two polynomials.
pub(crate) fn merge(
    alloc: Global,
    field: &Field,
    mine: &[PolyTerm],
    its: &[PolyTerm],
) -> Result<Vec<PolyTerm>, AllocError>
    requires { (n : ℕ) × IsCanonical field.now n mine.now × IsCanonical field.now n its.now }
    ensures { IfOk result (λ v. v.items ≡ canonical field.now (mine.now ++ its.now)) }
{
    let mut terms = Vec::with_capacity(alloc, mine.len() + its.len())?;
    let mut i = 0;
    let mut j = 0;
    while i < mine.len() && j < its.len() {
        let a = mine[i];
        let b = its[j];
        match a.mono.cmp_ds(&b.mono) {
            Ordering::Greater => {
                terms.push(a)?;
                i += 1;
            }
            Ordering::Less => {
                terms.push(b)?;
                j += 1;
            }
            Ordering::Equal => {
                let coef = field.add(a.coef, b.coef);
                push_term(&mut terms, a.mono, coef)?;
                i += 1;
                j += 1;
            }
        }
    }
    terms.extend_from_slice(&mine[i..])?;
    terms.extend_from_slice(&its[j..])?;
    Ok(terms)
}
