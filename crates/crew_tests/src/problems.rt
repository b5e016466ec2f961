//! The problems of the examples, in x and y modulo 32003.

ghost use Rattle.std.specs.Prelude.{◌≤◌};
ghost use Rattle.local_order.specs.Limits.{max_variables};

use local_order::Mono;
use prime_field::Field;
use sparse_poly::{Poly, PolyTerm, Polys, Problem};
use std::alloc::Global;
use std::test::Fail;

/// Terms by their exponents and coefficients.
pub type Written<'a> = &'a [([u16; 2], u32)];

/// The partial derivatives of x^5 + x^2*y^2 + y^5.
pub const JACOBIAN: &[Written] = &[&[([1, 2], 2), ([4, 0], 5)], &[([2, 1], 2), ([0, 4], 5)]];

/// The two, the second of them first, and that one again.
pub const TWICE: &[Written] = &[
    &[([2, 1], 2), ([0, 4], 5)],
    &[([4, 0], 5), ([1, 2], 2)],
    &[([2, 1], 2), ([0, 4], 5)],
];

/// The partial derivatives of x^7 + x^3*y^3 + y^7.
pub const SEVENTH: &[Written] = &[&[([2, 3], 3), ([6, 0], 7)], &[([3, 2], 3), ([0, 6], 7)]];

/// x - x^2 - y^3 and x.
pub const CURVE: &[Written] = &[
    &[([1, 0], 1), ([2, 0], 32002), ([0, 3], 32002)],
    &[([1, 0], 1)],
];

/// Zero.
pub const NOTHING: &[Written] = &[&[]];

/// A polynomial in n variables.
fn poly(alloc: Global, field: &Field, n: u32, terms: Written) -> Result<Poly, Fail>
    requires some { 1 ≤ n }
    requires few { n ≤ max_variables }
{
    let mut made = Vec::new(alloc);
    for (exponents, coef) in terms {
        let mono = Mono::new(exponents).ok_or("no monomial")?;
        if mono.n() != n {
            return Err("another number of variables")?;
        }
        made.push(PolyTerm { mono, coef: *coef })?;
    }
    Ok(Poly::from_terms(alloc, field, n, made)?)
}

/// The problem of these generators modulo degree d + 1.
pub fn problem(alloc: Global, d: u32, gens: &[Written]) -> Result<Problem, Fail> {
    let field = Field::of(32003).ok_or("no field")?;
    let mut polys = Polys::new(alloc);
    for terms in gens {
        polys.push(poly(alloc, &field, 2, terms)?)?;
    }
    Ok(Problem::checked(field, 2, d, polys).ok_or("no problem")?)
}
