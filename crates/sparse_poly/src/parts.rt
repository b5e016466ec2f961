//! What one polynomial gives: its part up to a degree, its derivatives and its monic multiple.

ghost use Rattle.std.specs.Prelude.{◌≡◌, ◌≢◌, ℕ, ◌<◌, ◌≤◌, List, [], IfOk};
ghost use Rattle.prime_field.specs.Inverse.{inverse};
ghost use Rattle.sparse_poly.specs.Poly.{coef, cut, derivative, term_times, HasResidues, IsCanonical};
ghost use Rattle.sparse_poly.specs.Canonical.{canonical};
ghost use Rattle.sparse_poly.specs.Ideal.{ring, IsLead};

use crate::monomials;
use crate::multiples::{push_term, scaled};
use crate::poly::Poly;
use prime_field::Field;
use std::alloc::{AllocError, Global};

impl Poly {
    /// The polynomial without its terms of degree above `degree`.
    pub fn cut(&self, alloc: Global, degree: u32) -> Result<Poly, AllocError>
        ensures value { IfOk result (λ f. f ≡ record { n = self.now.n; terms = cut degree self.now.terms }) }
        ensures residues { IfOk result (λ f. (p : ℕ) → HasResidues p self.now.terms → HasResidues p f.terms) }
    {
        let mut terms = Vec::with_capacity(alloc, self.terms.len())?;
        for term in &self.terms {
            if term.mono.degree() <= degree {
                terms.push(*term)?;
            }
        }
        Ok(Poly { n: self.n, terms })
    }

    /// The derivative by variable `variable`, the first being 0.
    pub fn derivative(
        &self,
        alloc: Global,
        field: &Field,
        variable: u32,
    ) -> Result<Poly, AllocError>
        requires own { HasResidues field.now self.now.terms }
        requires within { variable < self.now.n }
        ensures value { IfOk result (λ f. f ≡ record {
          n = self.now.n;
          terms = canonical field.now (derivative variable self.now.terms);
        }) }
        ensures canonical { IfOk result (λ f. IsCanonical field.now f.n f.terms) }
    {
        let prime = field.prime();
        let divisor = monomials::variable(self.n, variable);
        let mut terms = Vec::with_capacity(alloc, self.terms.len())?;
        for term in &self.terms {
            if let Some(mono) = term.mono.quotient(&divisor) {
                let exponent = u32::from(term.mono.exp(variable));
                push_term(&mut terms, mono, field.mul(term.coef, exponent % prime))?;
            }
        }
        Ok(Poly { n: self.n, terms })
    }

    /// The multiple with leading coefficient 1.
    pub fn monic(&self, alloc: Global, field: &Field) -> Result<Poly, AllocError>
        requires own { HasResidues field.now self.now.terms }
        requires some { self.now.terms ≢ [] }
        ensures value { IfOk result (λ f. (m : List ℕ) → IsLead (ring field.now self.now.n 0) self.now.terms m
            → f ≡ record {
              n = self.now.n;
              terms = canonical field.now (term_times (inverse field.now (coef field.now self.now.terms m)) [] self.now.terms);
            }) }
        ensures canonical { IfOk result (λ f. IsCanonical field.now f.n f.terms) }
        ensures lead { IfOk result (λ f. (m : List ℕ) → IsLead (ring field.now self.now.n 0) self.now.terms m
            → coef field.now f.terms m ≡ 1) }
    {
        let factor = field.inv(self.terms[0].coef);
        let terms = scaled(alloc, field, factor, &self.terms)?;
        Ok(Poly { n: self.n, terms })
    }
}
