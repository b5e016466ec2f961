//! Products and powers of polynomials, without the terms above a degree.

ghost use Rattle.std.specs.Prelude.{◌≡◌, ℕ, ◌≤◌, IfOk};
ghost use Rattle.local_order.specs.Limits.{max_exponent, max_variables};
ghost use Rattle.sparse_poly.specs.Poly.{cut, times, one, power, HasResidues, IsCanonical};
ghost use Rattle.sparse_poly.specs.Canonical.{canonical};

use crate::monomials::constant;
use crate::multiples::multiple;
use crate::poly::Poly;
use crate::sums::merge;
use crate::term::PolyTerm;
use prime_field::Field;
use std::alloc::{AllocError, Global};

impl Poly {
    /// The product of the two without its terms of degree above `degree`.
    /// The degree is at most 1,000, so that no exponent is past the limit of a monomial.
    pub fn mul_cut(
        &self,
        alloc: Global,
        field: &Field,
        other: &Poly,
        degree: u32,
    ) -> Result<Poly, AllocError>
        requires own { HasResidues field.now self.now.terms }
        requires other { HasResidues field.now other.now.terms }
        requires one_n { other.now.n ≡ self.now.n }
        requires degree { degree ≤ max_exponent }
        ensures value { IfOk result (λ f. f ≡ record {
          n = self.now.n;
          terms = canonical field.now (cut degree (times self.now.terms other.now.terms));
        }) }
        ensures canonical { IfOk result (λ f. IsCanonical field.now f.n f.terms) }
    {
        let terms = product(alloc, field, &self.terms, &other.terms, degree)?;
        Ok(Poly { n: self.n, terms })
    }

    /// The power without its terms of degree above `degree`, which is at most 1,000.
    /// The power with exponent 0 is 1. A great exponent takes a product or two for each of its bits.
    pub fn pow_cut(
        &self,
        alloc: Global,
        field: &Field,
        exponent: u32,
        degree: u32,
    ) -> Result<Poly, AllocError>
        requires own { HasResidues field.now self.now.terms }
        requires degree { degree ≤ max_exponent }
        ensures value { IfOk result (λ f. f ≡ record {
          n = self.now.n;
          terms = canonical field.now (cut degree (power self.now.n self.now.terms exponent));
        }) }
        ensures canonical { IfOk result (λ f. IsCanonical field.now f.n f.terms) }
    {
        let mut power = one(alloc, field, self.n)?;
        let mut base = self.cut(alloc, degree)?;
        let mut left = exponent;
        while left > 0 {
            if left % 2 == 1 {
                power = power.mul_cut(alloc, field, &base, degree)?;
            }
            left /= 2;
            if left > 0 {
                base = base.mul_cut(alloc, field, &base, degree)?;
            }
        }
        Ok(power)
    }
}

/// The polynomial 1 in `n` variables.
fn one(alloc: Global, field: &Field, n: u32) -> Result<Poly, AllocError>
    requires some { 1 ≤ n }
    requires few { n ≤ max_variables }
    ensures value { IfOk result (λ f. f ≡ record { n = n; terms = one n }) }
    ensures canonical { IfOk result (λ f. IsCanonical field.now f.n f.terms) }
{
    let prime = field.prime();
    prove!(1 < prime);
    let mut terms = Vec::with_capacity(alloc, 1)?;
    terms.push(PolyTerm {
        mono: constant(n),
        coef: 1,
    })?;
    Ok(Poly { n, terms })
}

/// The terms of a product that are not above a degree: the sum of the products of the first factor's halves.
fn product(
    alloc: Global,
    field: &Field,
    mine: &[PolyTerm],
    its: &[PolyTerm],
    degree: u32,
) -> Result<Vec<PolyTerm>, AllocError>
    requires factors { (n : ℕ) × IsCanonical field.now n mine.now × IsCanonical field.now n its.now }
    requires degree { degree ≤ max_exponent }
    ensures { IfOk result (λ v. v.items ≡ canonical field.now (cut degree (times mine.now its.now))) }
{
    match mine {
        [] => Ok(Vec::new(alloc)),
        [term] => multiple(alloc, field, term, its, degree),
        _ => {
            let (front, back) = mine.split_at(mine.len() / 2);
            let front = product(alloc, field, front, its, degree)?;
            let back = product(alloc, field, back, its, degree)?;
            merge(alloc, field, &front, &back)
        }
    }
}
