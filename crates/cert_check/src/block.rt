//! The checks of a block, in order.

ghost use Rattle.std.specs.Prelude.{◌≡◌, ◌<◌, ◌≤◌, ◌+◌, ◌∷◌, ◌^◌, length, All, IfOk, IfNone, IsTrue, ◌↔◌, MatchResult};
ghost use Rattle.sparse_poly.specs.Ideal.{IsProblem};
ghost use Rattle.text_out.specs.declared.answer.Answer.TheVariants.{Fits};
ghost use Rattle.mora_law.specs.Entries.{corner};
ghost use Rattle.mora_law.specs.Legal.{Legal};
ghost use Rattle.local_order.specs.Shape.{count};
ghost use Rattle.cert_check.specs.Block.{IsRead, IsCornerIn};
ghost use Rattle.cert_check.specs.Accepted.{IsAcceptedBlock, before};
ghost use Rattle.cert_check.specs.Right.{IsRight};
ghost use Rattle.cert_check.specs.Checks.{entries_checks, tickets, verdict, answer_checks, checks, verdict_line, block_lines, Holds};
ghost use Rattle.cert_check.specs.Fault.{IsFirstFaultIn};
ghost use Rattle.cert_check.specs.Sparse.{HasTable};
ghost use Rattle.cert_check.specs.Answers.{IsAnswered, IsPassed};

use crate::basis::{minimal_places, wrong_member};
use crate::division::corner_of;
use crate::entry::check_entry;
use crate::fault::Fault;
use crate::places::is_same;
use crate::reason::Reason;
use crate::tickets::are_divided;
use crate::verdict::{is_free_list, is_verdict};
use cert_grammar::Certified;
use local_order::Mono;
use mono_rank::{RankError, RankTable};
use sparse_poly::{Polys, Problem};
use std::alloc::{AllocError, Global};
use text_out::{Answer, Monos};

/// What is known once all entries are checked: the corner of their leads, and the line behind them.
#[derive(Clone, Copy)]
pub(crate) struct Passed {
    pub(crate) corner: u32,
    pub(crate) line: u64,
}

/// Checks the entries: the first fault, where there is one.
fn check_entries(
    alloc: Global,
    block: &Certified,
    table: &RankTable,
) -> Result<Result<Passed, Fault>, AllocError>
    requires read { IsRead block.now }
    requires table { HasTable block.now.problem table.now }
    requires few { block_lines block.now < 2 ^ 63 }
    ensures { IfOk result (λ r. MatchResult r
        (λ x. All (Holds block.now) (entries_checks 0 block.now.entries) × IsPassed block.now x)
        (λ f. IsFirstFaultIn block.now (entries_checks 0 block.now.entries) f.line f.reason)) }
{
    let mut corners = Vec::new(alloc);
    let mut corner = table.count();
    corners.push(corner)?;
    let mut line = block.problem.gens().len() as u64 + 6;
    for i in 0..block.entries.len() {
        if let Some(fault) = check_entry(alloc, block, table, &corners, i, line)? {
            return Ok(Err(fault));
        }
        corner = corner_of(&block.problem, table, &block.entries, i + 1, corner);
        corners.push(corner)?;
        line += block.entries.get(i).reads.len() as u64 + 2;
    }
    Ok(Ok(Passed { corner, line }))
}

/// Whether the monomial is the one of the rank before `w`, or there is none and `w` is 0.
fn is_before(problem: &Problem, table: &RankTable, w: u32, m: &Option<Mono>) -> bool
    requires problem { IsProblem problem.now }
    requires table { HasTable problem.now table.now }
    requires low { w ≤ count table.now }
    requires ring { IsCornerIn problem.now m.now }
    ensures { IsTrue result ↔ (m.now ≡ before problem.now w) }
{
    let _problem = problem;
    match m {
        None => w == 0,
        Some(m) => {
            if w == 0 {
                return false;
            }
            is_same(&table.mono(w - 1), m)
        }
    }
}

/// Checks what stands behind `fits`, from the line of the verdict on: the first fault, where there is one.
fn check_fits(
    alloc: Global,
    block: &Certified,
    table: &RankTable,
    passed: Passed,
    basis: &Polys,
    stair: &Monos,
) -> Result<Option<Fault>, AllocError>
    requires read { IsRead block.now }
    requires table { HasTable block.now.problem table.now }
    requires passed { IsPassed block.now passed }
    requires few { block_lines block.now < 2 ^ 63 }
    requires answer { block.now.answer ≡ Fits basis.now stair.now }
    ensures { IfOk result (IsAnswered block.now (answer_checks block.now.answer)) }
{
    let problem = &block.problem;
    let places = minimal_places(alloc, problem, table, &block.entries)?;
    let behind = passed.line + 2;
    if places.len() != basis.len() {
        return Ok(Some(Fault {
            line: passed.line + 1,
            reason: Reason::Basis,
        }));
    }
    if let Some(k) = wrong_member(
        alloc,
        problem,
        table,
        &block.entries,
        passed.corner,
        &places,
        basis,
    )? {
        return Ok(Some(Fault {
            line: behind + k as u64,
            reason: Reason::Basis,
        }));
    }
    if !is_before(problem, table, passed.corner, &block.corner) {
        return Ok(Some(Fault {
            line: behind + basis.len() as u64,
            reason: Reason::HighCorner,
        }));
    }
    if !is_free_list(alloc, problem, table, &block.entries, stair)? {
        return Ok(Some(Fault {
            line: behind + basis.len() as u64 + 1,
            reason: Reason::Stair,
        }));
    }
    Ok(None)
}

/// Checks what stands behind the entries: the first fault, where there is one.
fn check_answer(
    alloc: Global,
    block: &Certified,
    table: &RankTable,
    passed: Passed,
) -> Result<Option<Fault>, AllocError>
    requires read { IsRead block.now }
    requires table { HasTable block.now.problem table.now }
    requires passed { IsPassed block.now passed }
    requires legal { Legal block.now.problem block.now.entries }
    requires few { block_lines block.now < 2 ^ 63 }
    ensures { IfOk result (IsAnswered block.now (tickets ∷ verdict ∷ answer_checks block.now.answer)) }
{
    let problem = &block.problem;
    if !are_divided(alloc, problem, table, &block.entries, passed.corner)? {
        return Ok(Some(Fault {
            line: passed.line,
            reason: Reason::Unsettled,
        }));
    }
    if !is_verdict(
        alloc,
        problem,
        table,
        &block.entries,
        passed.corner,
        &block.answer,
    )? {
        return Ok(Some(Fault {
            line: passed.line,
            reason: Reason::Verdict,
        }));
    }
    match &block.answer {
        Answer::Fits { basis, stair } => check_fits(alloc, block, table, passed, basis, stair),
        Answer::TooSmall { .. } => Ok(None),
    }
}

/// Checks a block that was read: none where it is accepted, and then its answer is right; else the first fault. Its line is counted
/// in the block from 0.
pub fn check_block(alloc: Global, block: &Certified) -> Result<Option<Fault>, AllocError>
    requires read { IsRead block.now }
    requires few { block_lines block.now < 2 ^ 63 }
    ensures fault { IfOk result (IsAnswered block.now (checks block.now)) }
    ensures accepted { IfOk result (λ o. IfNone o (IsAcceptedBlock block.now)) }
    ensures right { IfOk result (λ o. IfNone o (IsRight block.now.problem block.now.answer block.now.corner)) }
{
    let problem = &block.problem;
    let table = match RankTable::new(alloc, problem.n(), problem.d()) {
        Ok(table) => table,
        Err(RankError::Memory) => return Err(AllocError),
        Err(RankError::TooManyMonomials(_)) => unreachable!(),
    };
    match check_entries(alloc, block, &table)? {
        Ok(passed) => check_answer(alloc, block, &table, passed),
        Err(fault) => Ok(Some(fault)),
    }
}
