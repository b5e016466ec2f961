//! The problems of a function.

ghost use Rattle.std.specs.Prelude.{◌≡◌, ◌+◌, ◌≤◌, IfOk};
ghost use Rattle.local_order.specs.Count.{monomial_count};
ghost use Rattle.local_order.specs.Limits.{max_degree, max_monomials};
ghost use Rattle.sparse_poly.specs.Ideal.{IsGenerator};
ghost use Rattle.sparse_poly.specs.Jacobian.{jacobian_problem, tjurina_problem as problem_of_tjurina};

use crate::partials::{cut_beyond, push_partials};
use prime_field::Field;
use sparse_poly::{Poly, Polys, Problem};
use std::alloc::{AllocError, Global};

/// The problem of the Milnor number of `f`: its partial derivatives in the order of the variables, cut beyond degree `d`.
pub fn milnor_problem(
    alloc: Global,
    field: &Field,
    n: u32,
    d: u32,
    f: &Poly,
) -> Result<Problem, AllocError>
    requires some { 1 ≤ d }
    requires low { d ≤ max_degree }
    requires few { monomial_count n d ≤ max_monomials }
    requires function { IsGenerator field.now n (d + 1) f.now }
    ensures { IfOk result (λ P. P ≡ jacobian_problem field.now n d f.now.terms) }
{
    let _prime = field.prime();
    let _variables = f.n();
    let mut gens = Polys::new(alloc);
    push_partials(alloc, field, n, d, f, &mut gens)?;
    Ok(Problem::new(*field, n, d, gens))
}

/// The problem of the Tjurina number of `f`: `f` itself and then its partial derivatives in the order of the variables, all
/// cut beyond degree `d`.
pub fn tjurina_problem(
    alloc: Global,
    field: &Field,
    n: u32,
    d: u32,
    f: &Poly,
) -> Result<Problem, AllocError>
    requires some { 1 ≤ d }
    requires low { d ≤ max_degree }
    requires few { monomial_count n d ≤ max_monomials }
    requires function { IsGenerator field.now n (d + 1) f.now }
    ensures { IfOk result (λ P. P ≡ problem_of_tjurina field.now n d f.now.terms) }
{
    let _prime = field.prime();
    let _variables = f.n();
    let mut gens = Polys::new(alloc);
    gens.push(cut_beyond(alloc, field, n, d, f)?)?;
    push_partials(alloc, field, n, d, f, &mut gens)?;
    Ok(Problem::new(*field, n, d, gens))
}
