//! Subtracting multiples.

ghost use Rattle.std.specs.Prelude.{◌≡◌, ◌<◌, ◌≤◌, ℕ, OnOk};
ghost use Rattle.sparse_poly.specs.Ideal.{IsProblem};
ghost use Rattle.rank_algebra.specs.Vector.{Same, shift, less};
ghost use Rattle.mora_law.specs.Ring.{ranks_of_problem};
ghost use Rattle.entry_code.specs.Terms.{vector_of_terms};
ghost use Rattle.cert_check.specs.Sparse.{at, HasTable, IsClean, AreInRing};

use crate::sparse::Sparse;
use entry_code::Terms;
use mono_rank::RankTable;
use sparse_poly::Problem;
use std::alloc::AllocError;

/// Subtracts `factor` times the monomial of rank `cofactor` times the polynomial with these terms.
/// What has rank `below` or more is left as it is.
pub(crate) fn subtract(
    problem: &Problem,
    table: &RankTable,
    h: &mut Sparse,
    factor: u32,
    cofactor: u32,
    terms: &Terms,
    below: u32,
) -> Result<(), AllocError>
    requires problem { IsProblem problem.now }
    requires table { HasTable problem.now table.now }
    requires factor { factor < problem.now.p }
    requires cofactor { cofactor < (ranks_of_problem problem.now).n }
    requires terms { AreInRing problem.now terms.now.list }
    requires clean { IsClean problem.now (at h.old.terms) }
    ensures clean { OnOk result (IsClean problem.now (at h.new.terms)) }
    ensures value { OnOk result ((r : ℕ) → r < below → r < (ranks_of_problem problem.now).n
        → Same problem.now.p (at h.new.terms r) (less (ranks_of_problem problem.now) factor (shift (ranks_of_problem problem.now) cofactor (vector_of_terms terms.now.list)) (at h.old.terms) r)) }
    ensures rest { OnOk result ((r : ℕ) → below ≤ r → at h.new.terms r ≡ at h.old.terms r) }
{
    let field = problem.field();
    let minus = field.neg(factor);
    for k in 0..terms.len() {
        let t = terms.get(k);
        let Some(rank) = table.times_rank(cofactor, t.rank) else {
            return Ok(());
        };
        if rank >= below {
            return Ok(());
        }
        h.add_at(field, rank, field.mul(minus, t.coef))?;
    }
    Ok(())
}
