//! The problems of the examples.

ghost use Rattle.std.specs.Prelude.{◌≡◌, [], ◌∷◌, IfOk};
ghost use Rattle.mora_law.specs.Examples.{written, kept_problem};
ghost use Rattle.board_tests.specs.Rows.{cubes};

use local_order::Mono;
use prime_field::Field;
use sparse_poly::{Poly, PolyTerm, Polys, Problem};
use std::alloc::Global;
use std::test::Fail;

/// A coefficient times the monomial with these exponents of x and y.
fn term(x: u16, y: u16, coef: u32) -> Result<PolyTerm, Fail>
    ensures { IfOk result (λ t. t ≡ written coef x y) }
{
    Ok(PolyTerm {
        mono: Mono::new(&[x, y]).ok_or("no monomial")?,
        coef,
    })
}

/// The monomial with these exponents of x and y, as a polynomial.
fn monomial(alloc: Global, field: &Field, x: u16, y: u16) -> Result<Poly, Fail>
    requires { field.now ≡ 32003 }
    ensures { IfOk result (λ f. f ≡ record { n = 2; terms = written 1 x y ∷ [] }) }
{
    let terms = vec![in alloc; term(x, y, 1)?]?;
    Ok(Poly::from_terms(alloc, field, 2, terms)?)
}

/// x^3, x^2*y and y^3 modulo degree 6.
pub fn three_cubes(alloc: Global) -> Result<Problem, Fail>
    ensures { IfOk result (λ p. p ≡ cubes) }
{
    let field = Field::of(32003).ok_or("no field")?;
    let mut gens = Polys::new(alloc);
    gens.push(monomial(alloc, &field, 3, 0)?)?;
    gens.push(monomial(alloc, &field, 2, 1)?)?;
    gens.push(monomial(alloc, &field, 0, 3)?)?;
    Ok(Problem::checked(field, 2, 5, gens).ok_or("no problem")?)
}

/// x - x^2 - y^3.
fn curve(alloc: Global, field: &Field) -> Result<Poly, Fail>
    requires { field.now ≡ 32003 }
    ensures { IfOk result (λ f. f ≡ record { n = 2; terms = written 1 1 0 ∷ written 32002 2 0 ∷ written 32002 0 3 ∷ [] }) }
{
    let terms = vec![in alloc; term(1, 0, 1)?, term(2, 0, 32002)?, term(0, 3, 32002)?]?;
    Ok(Poly::from_terms(alloc, field, 2, terms)?)
}

/// x - x^2 - y^3 and x modulo degree 5.
pub fn curve_and_line(alloc: Global) -> Result<Problem, Fail>
    ensures { IfOk result (λ p. p ≡ kept_problem) }
{
    let field = Field::of(32003).ok_or("no field")?;
    let mut gens = Polys::new(alloc);
    gens.push(curve(alloc, &field)?)?;
    gens.push(monomial(alloc, &field, 1, 0)?)?;
    Ok(Problem::checked(field, 2, 4, gens).ok_or("no problem")?)
}
