//! The checks of an entry, in order.

ghost use Rattle.std.specs.Prelude.{◌≡◌, ◌<◌, ◌≤◌, ◌+◌, ◌^◌, ℕ, length, IfOk, IsTrue, ◌↔◌};
ghost use Rattle.sparse_poly.specs.Ideal.{IsProblem};
ghost use Rattle.entry_code.specs.Entry.{entry_at};
ghost use Rattle.mora_law.specs.Ring.{ranks_of_problem};
ghost use Rattle.mora_law.specs.Entries.{terms_of, monic};
ghost use Rattle.mora_law.specs.Legal.{IsItemOf};
ghost use Rattle.cert_check.specs.Checks.{entry_checks, entry_line};
ghost use Rattle.cert_check.specs.Sparse.{at, HasTable, IsClean, AreStored, AreEntries};
ghost use Rattle.cert_check.specs.Answers.{IsAnswered, AreCorners};

use crate::fault::Fault;
use crate::reading::check_readings;
use crate::reason::Reason;
use crate::reduce::subtract;
use crate::sparse::Sparse;
use crate::start::start;
use cert_grammar::Certified;
use entry_code::{Item, Terms};
use mono_rank::RankTable;
use sparse_poly::Problem;
use std::alloc::{AllocError, Global};

/// Whether the item speaks of the `gens` generators and of the first `i` entries.
fn is_item_of(gens: u32, i: usize, item: Item) -> bool
    ensures { IsTrue result ↔ IsItemOf gens i item }
{
    match item {
        Item::Generator(g) => g < gens,
        Item::Pair(a, b) => a < b && (b as usize) < i,
    }
}

/// Whether the terms are those of `h`, made monic: the multiple of theirs that has its leading coefficient is subtracted from `h`.
fn are_terms(
    problem: &Problem,
    table: &RankTable,
    terms: &Terms,
    h: &mut Sparse,
) -> Result<bool, AllocError>
    requires problem { IsProblem problem.now }
    requires table { HasTable problem.now table.now }
    requires stored { AreStored problem.now terms.now.list }
    requires clean { IsClean problem.now (at h.old.terms) }
    ensures { IfOk result (λ yes. IsTrue yes
        ↔ (terms.now.list ≡ terms_of (ranks_of_problem problem.now) (monic (ranks_of_problem problem.now) (at h.old.terms)))) }
{
    let field = problem.field();
    let _prime = field.prime();
    let count = table.count();
    let Some(lead) = h.first() else {
        return Ok(false);
    };
    subtract(problem, table, h, lead.coef, 0, terms, count)?;
    Ok(h.is_zero())
}

/// Checks entry `i`, which begins at the line: the first fault, where there is one.
pub(crate) fn check_entry(
    alloc: Global,
    block: &Certified,
    table: &RankTable,
    corners: &[u32],
    i: usize,
    line: u64,
) -> Result<Option<Fault>, AllocError>
    requires problem { IsProblem block.now.problem }
    requires table { HasTable block.now.problem table.now }
    requires stored { AreEntries block.now.problem block.now.entries }
    requires place { i < length block.now.entries }
    requires corners { AreCorners block.now.problem block.now.entries i corners.now }
    requires line { line ≡ entry_line block.now i }
    requires few { line + length (entry_at block.now.entries i).reads + 2 < 2 ^ 64 }
    ensures { IfOk result (IsAnswered block.now (entry_checks i (entry_at block.now.entries i))) }
{
    let entry = block.entries.get(i);
    if !is_item_of(block.problem.generator_count(), i, entry.item) {
        return Ok(Some(Fault {
            line,
            reason: Reason::Item,
        }));
    }
    let count = table.count();
    let mut h = start(
        alloc,
        &block.problem,
        table,
        &block.entries,
        entry.item,
        count,
    )?;
    if let Some(fault) = check_readings(alloc, block, table, corners, i, line + 1, &mut h)? {
        return Ok(Some(fault));
    }
    let same = are_terms(&block.problem, table, &entry.terms, &mut h)?;
    if same {
        return Ok(None);
    }
    let line = line + 1 + entry.reads.len() as u64;
    Ok(Some(Fault {
        line,
        reason: Reason::Poly,
    }))
}
