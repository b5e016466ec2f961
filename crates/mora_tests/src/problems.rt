//! Problems that tests are written with, modulo 32003.

ghost use Rattle.std.specs.Prelude.{◌≡◌, ℕ, ◌≤◌, ◌↔◌, All, IsTrue, IfOk};
ghost use Rattle.local_order.specs.Limits.{max_variables};
ghost use Rattle.sparse_poly.specs.Poly.{IsCanonical, HasDegreeAtMost};

use local_order::Mono;
use mono_rank::RankTable;
use prime_field::Field;
use sparse_poly::{Poly, PolyTerm, Polys, Problem};
use std::alloc::Global;
use std::test::Fail;

/// Terms by their exponents and coefficients.
pub type Written<'a> = &'a [(&'a [u16], u32)];

/// The field of all examples.
pub fn field() -> Result<Field, Fail>
    ensures { IfOk result (λ f. f ≡ 32003) }
{
    Ok(Field::of(32003).ok_or("no field")?)
}

/// The polynomial with these terms.
fn poly(alloc: Global, field: &Field, n: u32, d: u32, terms: Written) -> Result<Poly, Fail>
    requires some { 1 ≤ n }
    requires few { n ≤ max_variables }
    ensures variables { IfOk result (λ f. f.n ≡ n) }
    ensures canonical { IfOk result (λ f. IsCanonical field.now n f.terms) }
    ensures low { IfOk result (λ f. HasDegreeAtMost d f.terms) }
{
    let mut made = Vec::new(alloc);
    for (exponents, coef) in terms {
        let mono = Mono::new(exponents).ok_or("no monomial")?;
        if mono.n() != n {
            return Err("another number of variables")?;
        }
        made.push(PolyTerm { mono, coef: *coef })?;
    }
    let made = Poly::from_terms(alloc, field, n, made)?;
    if !is_low(&made, d) {
        return Err("a degree too high")?;
    }
    Ok(made)
}

fn is_low(f: &Poly, d: u32) -> bool
    ensures { IsTrue result ↔ HasDegreeAtMost d f.now.terms }
{
    f.terms().iter().all(|t| t.mono.degree() <= d)
}

/// The problem of these generators, in the table's variables and modulo its degree.
pub fn problem(
    alloc: Global,
    table: &RankTable,
    n: u32,
    d: u32,
    gens: &[Written],
) -> Result<Problem, Fail>
    requires variables { table.now.variables ≡ n }
    requires degree { table.now.degree ≡ d }
    requires some { 1 ≤ d }
    ensures prime { IfOk result (λ f. f.p ≡ 32003) }
    ensures variables { IfOk result (λ f. f.n ≡ n) }
    ensures degree { IfOk result (λ f. f.d ≡ d) }
{
    let field = field()?;
    let _prime = field.prime();
    let _count = table.count();
    let mut made = Polys::new(alloc);
    for terms in gens {
        made.push(poly(alloc, &field, n, d, terms)?)?;
    }
    if made.len() > 64 {
        return Err("too many generators")?;
    }
    Ok(Problem::new(field, n, d, made))
}
