//! The tickets: each is skipped, or has an entry, or plain division by all entries leaves nothing of its start.

ghost use Rattle.std.specs.Prelude.{◌≡◌, ◌<◌, ◌≤◌, ◌^◌, ◌↔◌, ℕ, length, IfOk, IsTrue};
ghost use Rattle.sparse_poly.specs.Ideal.{IsProblem};
ghost use Rattle.entry_code.specs.declared.item.Item.TheVariants.{Generator, Pair};
ghost use Rattle.mora_law.specs.Ring.{ranks_of_problem, generators_of};
ghost use Rattle.mora_law.specs.Entries.{corner, leads};
ghost use Rattle.mora_law.specs.Legal.{IsItemOf, Legal};
ghost use Rattle.mora_law.specs.Settled.{IsSkipped, HasEntry, LeavesNothing};
ghost use Rattle.cert_check.specs.Accepted.{IsDone, AreDivided};
ghost use Rattle.cert_check.specs.Sparse.{HasTable, AreEntries};

use crate::division::divide;
use crate::places::lead_of;
use crate::start::start;
use entry_code::{Entries, Item};
use local_order::Mono;
use mono_rank::RankTable;
use pair_queue::skip;
use sparse_poly::Problem;
use std::alloc::{AllocError, Global};

/// The leads of the entries, as monomials.
fn leads(
    alloc: Global,
    problem: &Problem,
    table: &RankTable,
    entries: &Entries,
) -> Result<Vec<Mono>, AllocError>
    requires problem { IsProblem problem.now }
    requires table { HasTable problem.now table.now }
    requires stored { AreEntries problem.now entries.now }
    ensures { IfOk result (λ ms. ms.items ≡ leads problem.now entries.now) }
{
    let mut monos = Vec::new(alloc);
    for k in 0..entries.len() {
        monos.push(table.mono(lead_of(problem, entries, k)))?;
    }
    Ok(monos)
}

/// Whether plain division leaves nothing of the start of an item.
fn leaves_nothing(
    alloc: Global,
    problem: &Problem,
    table: &RankTable,
    entries: &Entries,
    lowest: u32,
    item: Item,
) -> Result<bool, AllocError>
    requires problem { IsProblem problem.now }
    requires table { HasTable problem.now table.now }
    requires stored { AreEntries problem.now entries.now }
    requires corner { lowest ≡ corner problem.now entries.now }
    requires item { IsItemOf (length problem.now.gens) (length entries.now) item }
    ensures { IfOk result (λ yes. IsTrue yes ↔ LeavesNothing (ranks_of_problem problem.now) (generators_of problem.now) entries.now item) }
{
    let mut h = start(alloc, problem, table, entries, item, lowest)?;
    divide(problem, table, entries, lowest, &mut h)?;
    Ok(h.is_zero())
}

/// Whether an entry has the item.
fn has_entry(entries: &Entries, item: Item) -> bool
    ensures { IsTrue result ↔ HasEntry entries.now item }
{
    for k in 0..entries.len() {
        if entries.get(k).item == item {
            return true;
        }
    }
    false
}

/// Whether the pair of the item is skipped.
fn is_skipped(problem: &Problem, entries: &Entries, monos: &[Mono], item: Item) -> bool
    requires problem { IsProblem problem.now }
    requires stored { AreEntries problem.now entries.now }
    requires leads { monos.now ≡ leads problem.now entries.now }
    requires item { IsItemOf (length problem.now.gens) (length entries.now) item }
    ensures { IsTrue result ↔ IsSkipped problem.now entries.now item }
{
    let _problem = problem;
    let _entries = entries;
    match item {
        Item::Generator(_) => false,
        Item::Pair(i, j) => skip(monos, i, j).is_some(),
    }
}

/// Whether an entry has the item, or its pair is skipped, or plain division leaves nothing of its start.
fn is_done(
    alloc: Global,
    problem: &Problem,
    table: &RankTable,
    entries: &Entries,
    monos: &[Mono],
    lowest: u32,
    item: Item,
) -> Result<bool, AllocError>
    requires problem { IsProblem problem.now }
    requires table { HasTable problem.now table.now }
    requires stored { AreEntries problem.now entries.now }
    requires leads { monos.now ≡ leads problem.now entries.now }
    requires corner { lowest ≡ corner problem.now entries.now }
    requires item { IsItemOf (length problem.now.gens) (length entries.now) item }
    ensures { IfOk result (λ yes. IsTrue yes ↔ IsDone problem.now entries.now item) }
{
    if is_skipped(problem, entries, monos, item) || has_entry(entries, item) {
        return Ok(true);
    }
    leaves_nothing(alloc, problem, table, entries, lowest, item)
}

/// Whether each generator is done.
fn generators_done(
    alloc: Global,
    problem: &Problem,
    table: &RankTable,
    entries: &Entries,
    monos: &[Mono],
    lowest: u32,
) -> Result<bool, AllocError>
    requires problem { IsProblem problem.now }
    requires table { HasTable problem.now table.now }
    requires stored { AreEntries problem.now entries.now }
    requires leads { monos.now ≡ leads problem.now entries.now }
    requires corner { lowest ≡ corner problem.now entries.now }
    ensures { IfOk result (λ yes. IsTrue yes ↔ ((g : ℕ) → g < length problem.now.gens → IsDone problem.now entries.now (Generator g))) }
{
    for g in 0..problem.generator_count() {
        let item = Item::Generator(g);
        if !is_done(alloc, problem, table, entries, monos, lowest, item)? {
            return Ok(false);
        }
    }
    Ok(true)
}

/// Whether each pair of entry `j` with an earlier one is.
fn pairs_done(
    alloc: Global,
    problem: &Problem,
    table: &RankTable,
    entries: &Entries,
    monos: &[Mono],
    lowest: u32,
    j: u32,
) -> Result<bool, AllocError>
    requires problem { IsProblem problem.now }
    requires table { HasTable problem.now table.now }
    requires stored { AreEntries problem.now entries.now }
    requires leads { monos.now ≡ leads problem.now entries.now }
    requires corner { lowest ≡ corner problem.now entries.now }
    requires second { j < length entries.now }
    ensures { IfOk result (λ yes. IsTrue yes ↔ ((i : ℕ) → i < j → IsDone problem.now entries.now (Pair i j))) }
{
    for i in 0..j {
        let item = Item::Pair(i, j);
        if !is_done(alloc, problem, table, entries, monos, lowest, item)? {
            return Ok(false);
        }
    }
    Ok(true)
}

/// Whether each pair is.
fn all_pairs_done(
    alloc: Global,
    problem: &Problem,
    table: &RankTable,
    entries: &Entries,
    monos: &[Mono],
    lowest: u32,
) -> Result<bool, AllocError>
    requires problem { IsProblem problem.now }
    requires table { HasTable problem.now table.now }
    requires stored { AreEntries problem.now entries.now }
    requires few { length entries.now < 2 ^ 32 }
    requires leads { monos.now ≡ leads problem.now entries.now }
    requires corner { lowest ≡ corner problem.now entries.now }
    ensures { IfOk result (λ yes. IsTrue yes ↔ ((j : ℕ) → j < length entries.now → (i : ℕ) → i < j → IsDone problem.now entries.now (Pair i j))) }
{
    for j in 0..entries.len() as u32 {
        if !pairs_done(alloc, problem, table, entries, monos, lowest, j)? {
            return Ok(false);
        }
    }
    Ok(true)
}

/// Whether each ticket below the total is skipped, or has a start of which plain division leaves nothing. The entries are legal, so one
/// that has an entry needs no division.
pub(crate) fn are_divided(
    alloc: Global,
    problem: &Problem,
    table: &RankTable,
    entries: &Entries,
    lowest: u32,
) -> Result<bool, AllocError>
    requires problem { IsProblem problem.now }
    requires table { HasTable problem.now table.now }
    requires stored { AreEntries problem.now entries.now }
    requires few { length entries.now < 2 ^ 32 }
    requires legal { Legal problem.now entries.now }
    requires corner { lowest ≡ corner problem.now entries.now }
    ensures { IfOk result (λ yes. IsTrue yes ↔ AreDivided problem.now entries.now) }
{
    let monos = leads(alloc, problem, table, entries)?;
    let generators = generators_done(alloc, problem, table, entries, &monos, lowest)?;
    if generators {
        let pairs = all_pairs_done(alloc, problem, table, entries, &monos, lowest)?;
        return Ok(pairs);
    }
    Ok(false)
}
