//! The division of a row.

ghost use Rattle.std.specs.Prelude.{◌≡◌, ◌≤◌, length};
ghost use Rattle.local_order.specs.Shape.{count};
ghost use Rattle.sparse_poly.specs.Shape.{shape_of};
ghost use Rattle.sparse_poly.specs.Ideal.{IsProblem};
ghost use Rattle.rank_algebra.specs.Rows.{IsRow, vector_of_row};
ghost use Rattle.rank_algebra.specs.Vector.{Vector, Agree};
ghost use Rattle.rank_algebra.specs.Division.{remainder};
ghost use Rattle.mora_law.specs.Ring.{ranks_of_problem};
ghost use Rattle.mora_law.specs.Entries.{basis_of};
ghost use Rattle.tail_reduce.specs.Terms.{HaveTerms};
ghost use Rattle.tail_reduce.specs.Divisors.{AreFirsts};

use crate::divisors::Divisor;
use entry_code::Entries;
use mono_rank::RankTable;
use sparse_poly::Problem;
use trunc_row::{cut, sub_terms};

/// Divides by the entries: below the corner, from the greatest monomial to the least, each multiple of a lead is removed by the
/// first such entry. From the corner on everything is dropped.
pub(crate) fn divide(
    problem: &Problem,
    table: &RankTable,
    entries: &Entries,
    firsts: &[Option<Divisor>],
    corner: u32,
    row: &mut [u32],
)
    requires problem { IsProblem problem.now }
    requires table { table.now ≡ shape_of problem.now }
    requires entries { HaveTerms problem.now entries.now }
    requires firsts { AreFirsts (ranks_of_problem problem.now) (basis_of entries.now) (count (shape_of problem.now)) firsts.now }
    requires corner { corner ≤ count (shape_of problem.now) }
    requires row { IsRow problem.now.p (count (shape_of problem.now)) row.old }
    ensures row { IsRow problem.now.p (count (shape_of problem.now)) row.new }
    ensures value { (v : Vector) → Agree (ranks_of_problem problem.now) (ranks_of_problem problem.now).n (vector_of_row row.old) v
        → Agree (ranks_of_problem problem.now) (ranks_of_problem problem.now).n (vector_of_row row.new)
        (remainder (ranks_of_problem problem.now) (basis_of entries.now) corner v) }
{
    let field = problem.field();
    for rank in 0..corner {
        let c = row[rank as usize];
        if c != 0 {
            if let Some(divisor) = firsts[rank as usize] {
                let entry = entries.get(divisor.place as usize);
                sub_terms(row, table, field, c, divisor.cofactor, &entry.terms);
            }
        }
    }
    cut(row, corner);
}
