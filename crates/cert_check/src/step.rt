//! One step of Mora's normal form, replayed.

ghost use Rattle.std.specs.Prelude.{◌≡◌, ◌<◌, ◌≤◌, ◌++◌, ℕ, length, Some, None, OnOk, IfOk};
ghost use Rattle.sparse_poly.specs.Ideal.{IsProblem};
ghost use Rattle.entry_code.specs.declared.term.Term.{Term};
ghost use Rattle.mora_law.specs.declared.step_end.StepEnd.TheVariants.{Reduced};
ghost use Rattle.mora_law.specs.Ring.{ranks_of_problem};
ghost use Rattle.mora_law.specs.Lead.{ecart};
ghost use Rattle.mora_law.specs.Step.{reduce, step};
ghost use Rattle.mora_law.specs.Alike.{RunAlike};
ghost use Rattle.mora_law.specs.Entries.{basis_of};
ghost use Rattle.cert_check.specs.Sparse.{at, IsFirstTerm, HasTable, IsClean, AreEntries};
ghost use Rattle.cert_check.specs.Replay.{vectors_of, AreKept, terms_at, HasPlace, reducer_with, IsReducerAt, IsPut, state};

use crate::choice::{Choice, Place, choose, degree_gap};
use crate::reduce::subtract;
use crate::sparse::Sparse;
use entry_code::{Entries, Reading, Term, Terms};
use mono_rank::RankTable;
use mora_law::StepEnd;
use sparse_poly::Problem;
use std::alloc::{AllocError, Global};

/// The ecart of a polynomial whose leading term is told.
fn ecart_of(problem: &Problem, table: &RankTable, h: &Sparse, lead: Term) -> u32
    requires problem { IsProblem problem.now }
    requires table { HasTable problem.now table.now }
    requires clean { IsClean problem.now (at h.now.terms) }
    requires lead { IsFirstTerm (at h.now.terms) lead }
    ensures { result ≡ ecart (ranks_of_problem problem.now) (at h.now.terms) }
{
    match h.last_rank() {
        Some(last) => degree_gap(problem, table, lead.rank, last),
        None => 0,
    }
}

/// Puts a polynomial behind the intermediates, where it is to be kept.
fn keep(
    alloc: Global,
    problem: &Problem,
    h: &Sparse,
    lead: Term,
    kept: &mut Vec<Terms>,
    wanted: bool,
) -> Result<(), AllocError>
    requires clean { IsClean problem.now (at h.now.terms) }
    requires lead { IsFirstTerm (at h.now.terms) lead }
    requires kept { AreKept problem.now kept.old.items }
    ensures put { OnOk result (IsPut (at h.now.terms) wanted kept.old.items kept.new.items) }
    ensures kept { OnOk result (AreKept problem.now kept.new.items) }
{
    let _lead = lead;
    let _problem = problem;
    if !wanted {
        return Ok(());
    }
    let terms = h.terms(alloc)?;
    kept.push(terms)?;
    Ok(())
}

/// The terms at a place.
fn terms_at<'a>(entries: &'a Entries, kept: &'a [Terms], place: Place) -> &'a Terms
    requires { HasPlace (length entries.now) (length kept.now) place }
    ensures { result.now.list ≡ terms_at entries.now kept.now place }
{
    match place {
        Place::Entry(i) => &entries.get(i).terms,
        Place::Kept(k) => &kept[k],
    }
}

/// Subtracts the multiple of the chosen reducer that has the leading term. Where the reducer has the greater ecart, what is reduced
/// is put behind the intermediates.
fn reduce(
    alloc: Global,
    problem: &Problem,
    table: &RankTable,
    entries: &Entries,
    kept: &mut Vec<Terms>,
    h: &mut Sparse,
    lead: Term,
    choice: Choice,
) -> Result<(), AllocError>
    requires problem { IsProblem problem.now }
    requires table { HasTable problem.now table.now }
    requires stored { AreEntries problem.now entries.now }
    requires kept { AreKept problem.now kept.old.items }
    requires clean { IsClean problem.now (at h.old.terms) }
    requires lead { IsFirstTerm (at h.old.terms) lead }
    requires choice { IsReducerAt (ranks_of_problem problem.now) (length entries.now) (length kept.old.items) (terms_at entries.now kept.old.items choice.place) choice }
    ensures step { OnOk result (RunAlike (ranks_of_problem problem.now) (state (Some Reduced) (at h.new.terms) kept.new.items)
        (reduce (ranks_of_problem problem.now) (vectors_of kept.old.items) (at h.old.terms) lead.rank
        (Some (reducer_with (terms_at entries.now kept.old.items choice.place) choice.cofactor)))) }
    ensures kept { OnOk result (AreKept problem.now kept.new.items) }
    ensures clean { OnOk result (IsClean problem.now (at h.new.terms)) }
{
    let field = problem.field();
    let count = table.count();
    let own = ecart_of(problem, table, h, lead);
    keep(alloc, problem, h, lead, kept, own < choice.ecart)?;
    let reducer = terms_at(entries, kept, choice.place);
    let factor = field.mul(lead.coef, field.inv(reducer.get(0).coef));
    subtract(problem, table, h, factor, choice.cofactor, reducer, count)?;
    Ok(())
}

/// One step by a reading: how it ends. It leaves what is left, and the intermediates.
pub(crate) fn step(
    alloc: Global,
    problem: &Problem,
    table: &RankTable,
    entries: &Entries,
    reading: Reading,
    kept: &mut Vec<Terms>,
    h: &mut Sparse,
) -> Result<StepEnd, AllocError>
    requires problem { IsProblem problem.now }
    requires table { HasTable problem.now table.now }
    requires stored { AreEntries problem.now entries.now }
    requires known { reading.known ≤ length entries.now }
    requires kept { AreKept problem.now kept.old.items }
    requires clean { IsClean problem.now (at h.old.terms) }
    ensures step { IfOk result (λ end. RunAlike (ranks_of_problem problem.now) (state (Some end) (at h.new.terms) kept.new.items)
        (step (ranks_of_problem problem.now) (basis_of entries.now).member (state None (at h.old.terms) kept.old.items) reading)) }
    ensures kept { OnOk result (AreKept problem.now kept.new.items) }
    ensures clean { OnOk result (IsClean problem.now (at h.new.terms)) }
{
    h.cut(reading.corner);
    let Some(lead) = h.first() else {
        return Ok(StepEnd::Zero);
    };
    let known = reading.known as usize;
    let Some(choice) = choose(problem, table, entries, known, kept, lead.rank) else {
        return Ok(StepEnd::Stuck);
    };
    reduce(alloc, problem, table, entries, kept, h, lead, choice)?;
    Ok(StepEnd::Reduced)
}
