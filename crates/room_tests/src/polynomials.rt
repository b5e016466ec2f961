//! Each call on polynomials in x and y that were worked out by hand.

ghost use Rattle.std.specs.Prelude.{◌≤◌};
ghost use Rattle.local_order.specs.Limits.{max_exponent};

use crate::build::{Written, field, has_terms, poly};
use prime_field::Field;
use sparse_poly::{Letters, Poly, Polys, Problem};
use std::alloc::Global;
use std::test::Fail;

// x + y
const PLUS: &[Written] = &[([0, 1], 1), ([1, 0], 1)];

/// Whether a result has these terms, and is zero exactly where there are none.
fn is_result(f: &Poly, want: &[Written]) -> bool {
    has_terms(f, want) && f.is_zero() == want.is_empty()
}

/// Whether this is the sum.
fn is_sum(
    alloc: Global,
    field: &Field,
    f: &[Written],
    g: &[Written],
    want: &[Written],
) -> Result<bool, Fail> {
    let f = poly(alloc, field, f)?;
    let g = poly(alloc, field, g)?;
    let sum = f.add(alloc, field, &g)?;
    Ok(is_result(&sum, want))
}

/// Whether this is the difference.
fn is_difference(
    alloc: Global,
    field: &Field,
    f: &[Written],
    g: &[Written],
    want: &[Written],
) -> Result<bool, Fail> {
    let f = poly(alloc, field, f)?;
    let g = poly(alloc, field, g)?;
    let difference = f.sub(alloc, field, &g)?;
    Ok(is_result(&difference, want))
}

#[test]
fn sums(rt: HostRuntime) -> Result<(), Fail> {
    let three = field(3)?;
    let minus: &[Written] = &[([0, 1], 5), ([1, 0], 1)];
    let answers = [
        is_sum(rt.alloc(), &three, PLUS, minus, &[([1, 0], 2)])?,
        is_difference(rt.alloc(), &three, PLUS, minus, &[([0, 1], 2)])?,
        is_difference(rt.alloc(), &three, PLUS, PLUS, &[])?,
    ];
    assert!(rt; answers == [true; 3]);
    Ok(())
}

/// Whether this is the product up to a degree.
fn is_product(
    alloc: Global,
    field: &Field,
    f: &[Written],
    g: &[Written],
    degree: u32,
    want: &[Written],
) -> Result<bool, Fail>
    requires { degree ≤ max_exponent }
{
    let f = poly(alloc, field, f)?;
    let g = poly(alloc, field, g)?;
    let product = f.mul_cut(alloc, field, &g, degree)?;
    Ok(is_result(&product, want))
}

/// Whether this is the power up to a degree.
fn is_power(
    alloc: Global,
    field: &Field,
    f: &[Written],
    exponent: u32,
    degree: u32,
    want: &[Written],
) -> Result<bool, Fail> {
    if degree > 1000 {
        return Err("beyond the limits")?;
    }
    let f = poly(alloc, field, f)?;
    let power = f.pow_cut(alloc, field, exponent, degree)?;
    Ok(is_result(&power, want))
}

#[test]
fn products(rt: HostRuntime) -> Result<(), Fail> {
    let three = field(3)?;
    let minus: &[Written] = &[([0, 1], 2), ([1, 0], 1)];
    let answers = [
        is_product(
            rt.alloc(),
            &three,
            PLUS,
            minus,
            2,
            &[([2, 0], 1), ([0, 2], 2)],
        )?,
        is_product(rt.alloc(), &three, PLUS, minus, 1, &[])?,
        is_power(
            rt.alloc(),
            &three,
            PLUS,
            3,
            1000,
            &[([3, 0], 1), ([0, 3], 1)],
        )?,
    ];
    assert!(rt; answers == [true; 3]);
    Ok(())
}

// 1 + x + 3y^2
const BASE: &[Written] = &[([0, 0], 1), ([1, 0], 1), ([0, 2], 3)];

/// Polynomials, exponents, degrees, and the powers modulo 7 up to them.
const POWERS: &[(&[Written], u32, u32, &[Written])] = &[
    (BASE, 0, 0, &[([0, 0], 1)]),
    (BASE, 1, 1, &[([0, 0], 1), ([1, 0], 1)]),
    (
        BASE,
        2,
        2,
        &[([0, 0], 1), ([1, 0], 2), ([2, 0], 1), ([0, 2], 6)],
    ),
    (BASE, 4_294_967_295, 1, &[([0, 0], 1), ([1, 0], 3)]),
    (&[], 0, 0, &[([0, 0], 1)]),
];

#[test]
fn powers(rt: HostRuntime) -> Result<(), Fail> {
    let seven = field(7)?;
    for (f, exponent, degree, want) in POWERS {
        assert!(rt; is_power(rt.alloc(), &seven, f, *exponent, *degree, want)?);
    }
    Ok(())
}

// 2x + 4y^2 + x^2*y
const MIXED: &[Written] = &[([2, 1], 1), ([1, 0], 2), ([0, 2], 4)];

/// The terms up to degree 2.
fn cut(alloc: Global, field: &Field) -> Result<Poly, Fail> {
    Ok(poly(alloc, field, MIXED)?.cut(alloc, 2)?)
}

/// The multiple that begins with coefficient 1.
fn monic(alloc: Global, field: &Field) -> Result<Poly, Fail> {
    let f = poly(alloc, field, MIXED)?;
    if f.is_zero() {
        return Err("no terms")?;
    }
    Ok(f.monic(alloc, field)?)
}

/// The same polynomial.
fn copy(alloc: Global, field: &Field) -> Result<Poly, Fail> {
    Ok(poly(alloc, field, MIXED)?.copy(alloc)?)
}

#[test]
fn parts(rt: HostRuntime) -> Result<(), Fail> {
    let five = field(5)?;
    let answers = [
        is_result(&cut(rt.alloc(), &five)?, &[([1, 0], 2), ([0, 2], 4)]),
        is_result(
            &monic(rt.alloc(), &five)?,
            &[([1, 0], 1), ([0, 2], 2), ([2, 1], 3)],
        ),
        is_result(
            &copy(rt.alloc(), &five)?,
            &[([1, 0], 2), ([0, 2], 4), ([2, 1], 1)],
        ),
    ];
    assert!(rt; answers == [true; 3]);
    Ok(())
}

/// Primes, variables, and the derivatives of y + x^2 + x^3*y.
const DERIVATIVES: &[(u32, u32, &[Written])] = &[
    (2, 0, &[([2, 1], 1)]),
    (2, 1, &[([0, 0], 1), ([3, 0], 1)]),
    (3, 0, &[([1, 0], 2)]),
    (3, 1, &[([0, 0], 1), ([3, 0], 1)]),
];

/// The derivative of y + x^2 + x^3*y by a variable.
fn derivative(alloc: Global, p: u32, by: u32) -> Result<Poly, Fail> {
    let field = field(p)?;
    let f = poly(alloc, &field, &[([0, 1], 1), ([2, 0], 1), ([3, 1], 1)])?;
    if by >= f.n() {
        return Err("no variable")?;
    }
    Ok(f.derivative(alloc, &field, by)?)
}

#[test]
fn derivatives(rt: HostRuntime) -> Result<(), Fail> {
    for (p, by, want) in DERIVATIVES {
        let derivative = derivative(rt.alloc(), *p, *by)?;
        assert!(rt; is_result(&derivative, want), "by variable {by} modulo {p}");
    }
    Ok(())
}

/// The polynomials x and 0.
fn two(alloc: Global) -> Result<Polys, Fail> {
    let x = poly(alloc, &field(5)?, &[([1, 0], 1)])?;
    let mut list = Polys::new(alloc);
    list.push(x)?;
    list.push(Poly::zero(alloc, 2))?;
    Ok(Polys::from_vec(list.into_vec()))
}

/// Whether there are two polynomials, and the second one is 0.
fn are_two(list: &Polys) -> bool {
    list.len() == 2 && list.get(1).is_zero()
}

#[test]
fn lists(rt: HostRuntime) -> Result<(), Fail> {
    let list = two(rt.alloc())?;
    let copy = list.copy(rt.alloc())?;
    assert!(rt; [are_two(&list), are_two(&copy)] == [true; 2]);
    Ok(())
}

/// The problem of x + x^2*y^3 modulo 5 and degree 5.
fn problem(alloc: Global) -> Result<Problem, Fail> {
    let five = field(5)?;
    let f = poly(alloc, &five, &[([1, 0], 1), ([2, 3], 1)])?.cut(alloc, 4)?;
    let mut gens = Polys::new(alloc);
    gens.push(f)?;
    Ok(Problem::checked(five, 2, 4, gens).ok_or("no problem")?)
}

/// Whether that is the problem.
fn is_problem(problem: &Problem) -> bool {
    let gens = problem.gens();
    [problem.field().prime(), problem.n(), problem.d()] == [5, 2, 4]
        && problem.generator_count() == 1
        && gens.len() == 1
        && has_terms(gens.get(0), &[([1, 0], 1)])
}

#[test]
fn problems(rt: HostRuntime) -> Result<(), Fail> {
    let problem = problem(rt.alloc())?;
    let copy = problem.copy(rt.alloc())?;
    assert!(rt; [is_problem(&problem), is_problem(&copy)] == [true; 2]);
    Ok(())
}

/// Primes, numbers of variables, degrees, how often x + 6x^2*y^2 is a generator, and whether that is a problem. It is over the
/// numbers modulo 7, and 6 is no residue modulo 5.
const OUTSIDE: &[(u32, u32, u32, u32, bool)] = &[
    (7, 2, 4, 64, true),
    (7, 2, 89, 1, true),
    (7, 2, 90, 1, false),
    (7, 2, 3, 1, false),
    (7, 2, 0, 0, false),
    (7, 1, 256, 0, false),
    (7, 3, 4, 1, false),
    (7, 0, 4, 0, false),
    (7, 9, 1, 0, false),
    (7, 2, 4, 65, false),
    (5, 2, 4, 1, false),
];

/// So many times x + 6x^2*y^2.
fn copies(alloc: Global, count: u32) -> Result<Polys, Fail> {
    let seven = field(7)?;
    let mut all = Polys::new(alloc);
    for _ in 0..count {
        all.push(poly(alloc, &seven, &[([1, 0], 1), ([2, 2], 6)])?)?;
    }
    Ok(all)
}

/// Whether that is a problem.
fn is_made(alloc: Global, p: u32, n: u32, d: u32, count: u32) -> Result<bool, Fail> {
    let field = field(p)?;
    let gens = copies(alloc, count)?;
    Ok(Problem::checked(field, n, d, gens).is_some())
}

#[test]
fn problems_from_outside(rt: HostRuntime) -> Result<(), Fail> {
    for (p, n, d, count, fits) in OUTSIDE {
        let made = is_made(rt.alloc(), *p, *n, *d, *count)?;
        assert!(rt;
            made == *fits,
            "{n} variables, degree {d}, {count} generators"
        );
    }
    Ok(())
}

#[test]
fn letters(rt: HostRuntime) {
    let cases: [(&[u8], bool); 8] = [
        (b"", false),
        (b"x", true),
        (b"stuvwxyZ", true),
        (b"rstuvwxyz", false),
        (b"xyx", false),
        (b"xX", true),
        (b"x1", false),
        (b"x_", false),
    ];
    for (bytes, accepted) in cases {
        assert!(rt; Letters::new(bytes).is_some() == accepted);
    }
}
