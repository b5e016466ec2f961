//! Plain division by the entries, and the corner of their leads.

ghost use Rattle.std.specs.Prelude.{◌≡◌, ◌<◌, ◌≤◌, ℕ, length, OnOk};
ghost use Rattle.sparse_poly.specs.Ideal.{IsProblem};
ghost use Rattle.rank_algebra.specs.Vector.{Agree};
ghost use Rattle.rank_algebra.specs.Division.{first_of, remove, remainder, IsCover, corner_of};
ghost use Rattle.mora_law.specs.Ring.{ranks_of_problem};
ghost use Rattle.mora_law.specs.Entries.{basis_of};
ghost use Rattle.cert_check.specs.Sparse.{at, HasTable, IsClean, AreEntries};

use crate::places::first_divisor;
use crate::reduce::subtract;
use crate::sparse::Sparse;
use entry_code::Entries;
use mono_rank::RankTable;
use sparse_poly::Problem;
use std::alloc::AllocError;

/// Takes the term of rank `r` away by the first entry whose lead divides it, where there is one; at the corner and behind it
/// everything stays.
fn remove(
    problem: &Problem,
    table: &RankTable,
    entries: &Entries,
    corner: u32,
    r: u32,
    h: &mut Sparse,
) -> Result<(), AllocError>
    requires problem { IsProblem problem.now }
    requires table { HasTable problem.now table.now }
    requires stored { AreEntries problem.now entries.now }
    requires corner { corner ≤ (ranks_of_problem problem.now).n }
    requires rank { r < corner }
    requires clean { IsClean problem.now (at h.old.terms) }
    ensures value { OnOk result (Agree (ranks_of_problem problem.now) corner (at h.new.terms) (remove (ranks_of_problem problem.now) (basis_of entries.now) r (at h.old.terms))) }
    ensures rest { OnOk result ((x : ℕ) → corner ≤ x → at h.new.terms x ≡ at h.old.terms x) }
    ensures clean { OnOk result (IsClean problem.now (at h.new.terms)) }
{
    let _prime = problem.field().prime();
    let coef = h.coefficient(r);
    if coef == 0 {
        return Ok(());
    }
    let known = entries.len();
    let Some(hit) = first_divisor(problem, table, entries, known, r) else {
        return Ok(());
    };
    let divisor = &entries.get(hit.place).terms;
    subtract(problem, table, h, coef, hit.cofactor, divisor, corner)?;
    Ok(())
}

/// Divides by all entries: the remainder is left.
pub(crate) fn divide(
    problem: &Problem,
    table: &RankTable,
    entries: &Entries,
    corner: u32,
    h: &mut Sparse,
) -> Result<(), AllocError>
    requires problem { IsProblem problem.now }
    requires table { HasTable problem.now table.now }
    requires stored { AreEntries problem.now entries.now }
    requires corner { corner ≤ (ranks_of_problem problem.now).n }
    requires clean { IsClean problem.now (at h.old.terms) }
    ensures value { OnOk result (Agree (ranks_of_problem problem.now) (ranks_of_problem problem.now).n (at h.new.terms)
        (remainder (ranks_of_problem problem.now) (basis_of entries.now) corner (at h.old.terms))) }
    ensures clean { OnOk result (IsClean problem.now (at h.new.terms)) }
{
    h.cut(corner);
    for r in 0..corner {
        remove(problem, table, entries, corner, r, h)?;
    }
    Ok(())
}

/// The corner of the first `known` entries, where each rank from `from` on is that of a multiple of a lead.
pub(crate) fn corner_of(
    problem: &Problem,
    table: &RankTable,
    entries: &Entries,
    known: usize,
    from: u32,
) -> u32
    requires problem { IsProblem problem.now }
    requires table { HasTable problem.now table.now }
    requires stored { AreEntries problem.now entries.now }
    requires known { known ≤ length entries.now }
    requires covers { IsCover (ranks_of_problem problem.now) (first_of known (basis_of entries.now)) from }
    ensures { result ≡ corner_of (ranks_of_problem problem.now) (first_of known (basis_of entries.now)) }
{
    let mut corner = from;
    while corner > 0 {
        let Some(hit) = first_divisor(problem, table, entries, known, corner - 1) else {
            return corner;
        };
        let _cofactor = hit.cofactor;
        corner -= 1;
    }
    corner
}
