//! The check of the verdict, and of the staircase.

ghost use Rattle.std.specs.Prelude.{◌≡◌, ◌↔◌, length, All, IfOk, IsTrue};
ghost use Rattle.sparse_poly.specs.Ideal.{IsProblem};
ghost use Rattle.staircase.specs.Stair.{IsStairOf};
ghost use Rattle.mora_law.specs.Entries.{corner};
ghost use Rattle.cert_check.specs.Block.{IsAnswerIn};
ghost use Rattle.cert_check.specs.Sparse.{HasTable, AreEntries, lead_ranks};
ghost use Rattle.cert_check.specs.Accepted.{IsFirstFree, IsVerdict, IsFreeList};

use crate::places::{is_same, lead_of};
use entry_code::Entries;
use local_order::Mono;
use mono_rank::RankTable;
use sparse_poly::Problem;
use staircase::Stair;
use std::alloc::{AllocError, Global};
use text_out::{Answer, Monos};

/// The ranks of the leads.
fn lead_ranks(alloc: Global, problem: &Problem, entries: &Entries) -> Result<Vec<u32>, AllocError>
    requires stored { AreEntries problem.now entries.now }
    ensures { IfOk result (λ rs. rs.items ≡ lead_ranks entries.now) }
{
    let mut ranks = Vec::new(alloc);
    for k in 0..entries.len() {
        ranks.push(lead_of(problem, entries, k))?;
    }
    Ok(ranks)
}

/// The staircase of the leads of the entries.
fn stair_of(
    alloc: Global,
    problem: &Problem,
    table: &RankTable,
    entries: &Entries,
) -> Result<Stair, AllocError>
    requires problem { IsProblem problem.now }
    requires table { HasTable problem.now table.now }
    requires stored { AreEntries problem.now entries.now }
    ensures shape { IfOk result (λ s. s.shape ≡ table.now) }
    ensures ranks { IfOk result (λ s. IsStairOf table.now (lead_ranks entries.now) s.ranks) }
{
    let leads = lead_ranks(alloc, problem, entries)?;
    let stair = Stair::of(alloc, table, &leads)?;
    Ok(stair)
}

/// Whether a monomial is the greatest one of degree d that is a multiple of no lead.
fn is_missing(
    problem: &Problem,
    table: &RankTable,
    entries: &Entries,
    stair: &Stair,
    missing: &Mono,
) -> bool
    requires problem { IsProblem problem.now }
    requires table { HasTable problem.now table.now }
    requires stored { AreEntries problem.now entries.now }
    requires shape { stair.now.shape ≡ table.now }
    requires stair { IsStairOf table.now (lead_ranks entries.now) stair.now.ranks }
    requires ring { length missing.now ≡ problem.now.n }
    ensures { IsTrue result ↔ IsFirstFree problem.now entries.now missing.now }
{
    let _entries = entries;
    let _problem = problem;
    match stair.first_missing() {
        Some(rank) => is_same(&table.mono(rank), missing),
        None => false,
    }
}

/// Whether the verdict is what the leads say: the degree fits exactly where the corner is at most the first rank of degree d, and
/// else the greatest monomial of degree d that is a multiple of no lead is missing.
pub(crate) fn is_verdict(
    alloc: Global,
    problem: &Problem,
    table: &RankTable,
    entries: &Entries,
    lowest: u32,
    answer: &Answer,
) -> Result<bool, AllocError>
    requires problem { IsProblem problem.now }
    requires table { HasTable problem.now table.now }
    requires stored { AreEntries problem.now entries.now }
    requires corner { lowest ≡ corner problem.now entries.now }
    requires answer { IsAnswerIn problem.now answer.now }
    ensures { IfOk result (λ yes. IsTrue yes ↔ IsVerdict problem.now entries.now answer.now) }
{
    let first = table.first_of_degree(problem.d());
    match answer {
        Answer::Fits { .. } => Ok(lowest <= first),
        Answer::TooSmall { missing } => {
            if lowest <= first {
                return Ok(false);
            }
            let stair = stair_of(alloc, problem, table, entries)?;
            Ok(is_missing(problem, table, entries, &stair, missing))
        }
    }
}

/// Whether the monomials of the staircase's ranks are these.
fn are_monos(
    problem: &Problem,
    table: &RankTable,
    entries: &Entries,
    stair: &Stair,
    list: &Monos,
) -> bool
    requires problem { IsProblem problem.now }
    requires table { HasTable problem.now table.now }
    requires stored { AreEntries problem.now entries.now }
    requires shape { stair.now.shape ≡ table.now }
    requires stair { IsStairOf table.now (lead_ranks entries.now) stair.now.ranks }
    requires ring { All (λ m. length m ≡ problem.now.n) list.now }
    ensures { IsTrue result ↔ IsFreeList problem.now entries.now list.now }
{
    let _entries = entries;
    let _problem = problem;
    let ranks = stair.list();
    let count = ranks.len();
    if count != list.len() {
        return false;
    }
    for k in 0..count {
        let rank = ranks.get(k);
        let m = list.get(k);
        if !is_same(&table.mono(rank), m) {
            return false;
        }
    }
    true
}

/// Whether the list has the monomials that are multiples of no lead, the greatest first.
pub(crate) fn is_free_list(
    alloc: Global,
    problem: &Problem,
    table: &RankTable,
    entries: &Entries,
    list: &Monos,
) -> Result<bool, AllocError>
    requires problem { IsProblem problem.now }
    requires table { HasTable problem.now table.now }
    requires stored { AreEntries problem.now entries.now }
    requires ring { All (λ m. length m ≡ problem.now.n) list.now }
    ensures { IfOk result (λ yes. IsTrue yes ↔ IsFreeList problem.now entries.now list.now) }
{
    let stair = stair_of(alloc, problem, table, entries)?;
    Ok(are_monos(problem, table, entries, &stair, list))
}
