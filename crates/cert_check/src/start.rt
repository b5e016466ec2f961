//! Where runs begin.

ghost use Rattle.std.specs.Prelude.{◌≡◌, ◌<◌, ◌≤◌, length, get_or, [], IfOk};
ghost use Rattle.sparse_poly.specs.Ideal.{IsProblem};
ghost use Rattle.rank_algebra.specs.Vector.{Agree};
ghost use Rattle.rank_algebra.specs.Division.{pair};
ghost use Rattle.mora_law.specs.Ring.{ranks_of_problem, vector_of};
ghost use Rattle.mora_law.specs.Entries.{basis_of};
ghost use Rattle.mora_law.specs.Legal.{IsItemOf};
ghost use Rattle.mora_law.specs.Start.{start};
ghost use Rattle.cert_check.specs.Sparse.{at, HasTable, IsClean, AreEntries};

use crate::places::{cofactor_rank, lead_of};
use crate::reduce::subtract;
use crate::sparse::Sparse;
use entry_code::{Entries, Item};
use mono_rank::RankTable;
use sparse_poly::{Poly, Problem};
use std::alloc::{AllocError, Global};

/// The generator of an item, or the S-pair of its two entries, as far as ranks are below `below`.
pub(crate) fn start(
    alloc: Global,
    problem: &Problem,
    table: &RankTable,
    entries: &Entries,
    item: Item,
    below: u32,
) -> Result<Sparse, AllocError>
    requires problem { IsProblem problem.now }
    requires table { HasTable problem.now table.now }
    requires stored { AreEntries problem.now entries.now }
    requires item { IsItemOf (length problem.now.gens) (length entries.now) item }
    requires below { below ≤ (ranks_of_problem problem.now).n }
    ensures value { IfOk result (λ h. Agree (ranks_of_problem problem.now) below (at h.terms) (start problem.now entries.now item)) }
    ensures clean { IfOk result (λ h. IsClean problem.now (at h.terms)) }
{
    match item {
        Item::Generator(g) => generator(
            alloc,
            problem,
            table,
            problem.gens().get(g as usize),
            g as usize,
        ),
        Item::Pair(i, j) => pair(
            alloc, problem, table, entries, i as usize, j as usize, below,
        ),
    }
}

/// Generator `g`, whose polynomial is lent.
fn generator(
    alloc: Global,
    problem: &Problem,
    table: &RankTable,
    f: &Poly,
    g: usize,
) -> Result<Sparse, AllocError>
    requires problem { IsProblem problem.now }
    requires table { HasTable problem.now table.now }
    requires place { g < length problem.now.gens }
    requires is { f.now.terms ≡ get_or problem.now.gens g [] }
    ensures value { IfOk result (λ h. Agree (ranks_of_problem problem.now) (ranks_of_problem problem.now).n (at h.terms) (vector_of problem.now (get_or problem.now.gens g []))) }
    ensures clean { IfOk result (λ h. IsClean problem.now (at h.terms)) }
{
    let _place = g;
    let field = problem.field();
    let mut h = Sparse::new(alloc);
    for k in 0..f.len() {
        let t = f.get(k);
        h.add_at(field, table.rank(&t.mono).unwrap(), t.coef)?;
    }
    Ok(h)
}

/// The S-pair of entries `i` and `j`, as far as ranks are below `below`.
fn pair(
    alloc: Global,
    problem: &Problem,
    table: &RankTable,
    entries: &Entries,
    i: usize,
    j: usize,
    below: u32,
) -> Result<Sparse, AllocError>
    requires problem { IsProblem problem.now }
    requires table { HasTable problem.now table.now }
    requires stored { AreEntries problem.now entries.now }
    requires first { i < length entries.now }
    requires second { j < length entries.now }
    requires below { below ≤ (ranks_of_problem problem.now).n }
    ensures value { IfOk result (λ h. Agree (ranks_of_problem problem.now) below (at h.terms) (pair (ranks_of_problem problem.now) (basis_of entries.now) i j)) }
    ensures clean { IfOk result (λ h. IsClean problem.now (at h.terms)) }
{
    let field = problem.field();
    let first = lead_of(problem, entries, i);
    let second = lead_of(problem, entries, j);
    let by_first = cofactor_rank(problem, table, first, second);
    let by_second = cofactor_rank(problem, table, second, first);
    let mut h = Sparse::new(alloc);
    subtract(
        problem,
        table,
        &mut h,
        field.neg(1),
        by_first,
        &entries.get(i).terms,
        below,
    )?;
    subtract(
        problem,
        table,
        &mut h,
        1,
        by_second,
        &entries.get(j).terms,
        below,
    )?;
    Ok(h)
}
