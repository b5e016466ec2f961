//! Where runs begin.

ghost use Rattle.std.specs.Prelude.{◌≡◌, ◌<◌, ◌≤◌, length};
ghost use Rattle.local_order.specs.Shape.{count};
ghost use Rattle.sparse_poly.specs.Shape.{shape_of};
ghost use Rattle.rank_algebra.specs.Rows.{IsRow, vector_of_row};
ghost use Rattle.rank_algebra.specs.Vector.{Agree};
ghost use Rattle.mora_law.specs.Ring.{ranks_of_problem, generators_of};
ghost use Rattle.mora_law.specs.Legal.{IsItemOf};
ghost use Rattle.mora_law.specs.Start.{start_of};
ghost use Rattle.mora_form.specs.Reducers.{AreRows, AreSummarized};
ghost use Rattle.mora_form.specs.Begin.{basis_in};

use crate::reducers::Reducers;
use entry_code::Item;
use mono_rank::RankTable;
use prime_field::Field;
use sparse_poly::Problem;
use trunc_row::Row;

/// Becomes the row from which the runs of an item begin: the generator, or the S-pair of the two entries.
pub(crate) fn begin(
    row: &mut Row,
    table: &RankTable,
    problem: &Problem,
    known: &Reducers,
    item: Item,
)
    requires shape { shape_of problem.now ≡ table.now }
    requires row { IsRow problem.now.p (count table.now) row.old }
    requires known_rows { AreRows problem.now.p (count table.now) known.now.rows.list }
    requires known { AreSummarized table.now known.now.rows.list known.now.summaries.items }
    requires item { IsItemOf (length problem.now.gens) (length known.now.rows.list) item }
    ensures row { IsRow problem.now.p (count table.now) row.new }
    ensures start { Agree (ranks_of_problem problem.now) (count table.now) (vector_of_row row.new)
        (start_of (ranks_of_problem problem.now) (generators_of problem.now) (basis_in known.now.rows.list known.now.summaries.items) item) }
{
    match item {
        Item::Generator(g) => {
            row.set_poly(table, problem.gens().get(g as usize));
        }
        Item::Pair(i, j) => {
            let field = problem.field();
            let first = known.summaries[i as usize].lead;
            let second = known.summaries[j as usize].lead;
            row.clear();
            row.sub_multiple_of(
                table,
                field,
                field.neg(1),
                table.cofactor_rank(first, second),
                known.rows.get(i as usize),
            );
            row.sub_multiple_of(
                table,
                field,
                1,
                table.cofactor_rank(second, first),
                known.rows.get(j as usize),
            );
        }
    }
}
