//! A function and its partial derivatives as generators.

ghost use Rattle.std.specs.Prelude.{◌≡◌, ◌<◌, ◌++◌, map, All, IfOk, OnOk};
ghost use Rattle.sparse_poly.specs.Poly.{in_variables, cut, IsCanonical};
ghost use Rattle.sparse_poly.specs.Ideal.{IsGenerator};
ghost use Rattle.sparse_poly.specs.Jacobian.{partial, jacobian_ideal};

use prime_field::Field;
use sparse_poly::{Poly, Polys};
use std::alloc::{AllocError, Global};

/// The polynomial without its terms of degree above `d`, with room for its terms alone.
pub(crate) fn cut_beyond(
    alloc: Global,
    field: &Field,
    n: u32,
    d: u32,
    f: &Poly,
) -> Result<Poly, AllocError>
    requires variables { f.now.n ≡ n }
    requires canonical { IsCanonical field.now n f.now.terms }
    ensures value { IfOk result (λ g. g ≡ in_variables n (cut d f.now.terms)) }
    ensures valid { IfOk result (IsGenerator field.now n d) }
{
    let _field = field;
    f.cut(alloc, d)?.copy(alloc)
}

/// The partial derivative by a variable, cut beyond degree `d`.
fn partial_derivative(
    alloc: Global,
    field: &Field,
    n: u32,
    d: u32,
    f: &Poly,
    variable: u32,
) -> Result<Poly, AllocError>
    requires within { variable < n }
    requires variables { f.now.n ≡ n }
    requires canonical { IsCanonical field.now n f.now.terms }
    ensures value { IfOk result (λ g. g ≡ in_variables n (cut d (partial field.now variable f.now.terms))) }
    ensures valid { IfOk result (IsGenerator field.now n d) }
{
    let derivative = f.derivative(alloc, field, variable)?;
    cut_beyond(alloc, field, n, d, &derivative)
}

/// Puts the partial derivatives in the order of the variables, cut beyond degree `d`, at the end of the generators.
pub(crate) fn push_partials(
    alloc: Global,
    field: &Field,
    n: u32,
    d: u32,
    f: &Poly,
    gens: &mut Polys,
) -> Result<(), AllocError>
    requires variables { f.now.n ≡ n }
    requires canonical { IsCanonical field.now n f.now.terms }
    requires valid { All (IsGenerator field.now n d) gens.old }
    ensures gens { OnOk result (gens.new ≡ gens.old ++ map (in_variables n) (jacobian_ideal field.now n d f.now.terms)) }
    ensures valid { OnOk result (All (IsGenerator field.now n d) gens.new) }
{
    for variable in 0..n {
        gens.push(partial_derivative(alloc, field, n, d, f, variable)?)?;
    }
    Ok(())
}
