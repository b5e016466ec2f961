//! Problems that tests are written with, and lists of polynomials.

ghost use Rattle.std.specs.Prelude.{◌≤◌};
ghost use Rattle.local_order.specs.Limits.{max_variables};

use local_order::Mono;
use prime_field::Field;
use sparse_poly::{Poly, PolyTerm, Polys, Problem};
use std::alloc::Global;
use std::cmp::Ordering;
use std::test::Fail;

/// A polynomial, by the exponents of its terms and their coefficients.
pub type Written = &'static [(&'static [u16], u32)];

/// An ideal: the prime, the number of variables, the degree beyond which all is cut, and the generators; and its reduced basis.
#[derive(Clone, Copy)]
pub struct Ideal {
    pub prime: u32,
    pub n: u32,
    pub d: u32,
    pub gens: &'static [Written],
    pub basis: &'static [Written],
}

/// The polynomial with these terms.
fn poly(alloc: Global, field: &Field, n: u32, terms: Written) -> Result<Poly, Fail>
    requires some { 1 ≤ n }
    requires few { n ≤ max_variables }
{
    let mut made = Vec::new(alloc);
    for (exponents, coef) in terms {
        let mono = Mono::new(exponents).ok_or("no monomial")?;
        if mono.n() != n {
            return Err("another number of variables")?;
        }
        made.push(PolyTerm { mono, coef: *coef })?;
    }
    Ok(Poly::from_terms(alloc, field, n, made)?)
}

impl Ideal {
    /// These polynomials in its ring.
    fn polys(&self, alloc: Global, written: &[Written]) -> Result<Polys, Fail> {
        let field = Field::of(self.prime).ok_or("no field")?;
        if self.n < 1 || self.n > 8 {
            return Err("too many variables")?;
        }
        let mut made = Polys::new(alloc);
        for terms in written {
            made.push(poly(alloc, &field, self.n, terms)?)?;
        }
        Ok(made)
    }

    /// Its problem.
    pub fn problem(&self, alloc: Global) -> Result<Problem, Fail> {
        let field = Field::of(self.prime).ok_or("no field")?;
        let gens = self.polys(alloc, self.gens)?;
        Ok(Problem::checked(field, self.n, self.d, gens).ok_or("no problem")?)
    }

    /// Whether these polynomials are its reduced basis.
    pub fn has_basis(&self, alloc: Global, list: &Polys) -> Result<bool, Fail> {
        let basis = self.polys(alloc, self.basis)?;
        Ok(are_same(list, &basis))
    }
}

/// Whether two lists have the same polynomials.
fn are_same(list: &Polys, wanted: &Polys) -> bool {
    list.len() == wanted.len() && (0..list.len()).all(|i| is_same(list.get(i), wanted.get(i)))
}

fn is_same(f: &Poly, wanted: &Poly) -> bool {
    f.len() == wanted.len()
        && f.terms()
            .iter()
            .zip(wanted.terms())
            .all(|(t, want)| is_term(t, want))
}

fn is_term(term: &PolyTerm, want: &PolyTerm) -> bool {
    let n = term.mono.n();
    term.coef == want.coef
        && n == want.mono.n()
        && matches!(term.mono.cmp_ds(&want.mono), Ordering::Equal)
}
