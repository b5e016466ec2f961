//! The checks of a reading, in order.

ghost use Rattle.entry_code.specs.Entry.{Entry};
ghost use Rattle.std.specs.Prelude.{List, ◌≡◌, ◌<◌, ◌≤◌, ◌+◌, ◌^◌, [], ◌∷◌, ℕ, length, OnOk, IfOk, IfNone, IsTrue, ◌↔◌};
ghost use Rattle.sparse_poly.specs.Ideal.{IsProblem};
ghost use Rattle.entry_code.specs.Entry.{entry_at};
ghost use Rattle.rank_algebra.specs.Vector.{Agree};
ghost use Rattle.mora_law.specs.Ring.{ranks_of_problem};
ghost use Rattle.mora_law.specs.Entries.{basis_of};
ghost use Rattle.mora_law.specs.Start.{start, run};
ghost use Rattle.cert_check.specs.Checks.{known, corner, run as run_check, reading_checks, entry_line, reading_at, known_before, corner_before, end_at, IsKnown, IsCornerOf};
ghost use Rattle.cert_check.specs.Sparse.{at, HasTable, IsClean, AreEntries};
ghost use Rattle.cert_check.specs.Replay.{AreKept};
ghost use Rattle.cert_check.specs.Answers.{IsAnswered, AreCorners, IsReplayed};

use crate::fault::Fault;
use crate::reason::Reason;
use crate::sparse::Sparse;
use crate::step::step;
use cert_grammar::Certified;
use entry_code::{Reads, Terms};
use mono_rank::RankTable;
use mora_law::StepEnd;
use sparse_poly::Problem;
use std::alloc::{AllocError, Global};

/// What the reading before place `j` knew, and 0 where there is none.
fn known_before(reads: &Reads, j: usize) -> u32
    requires { j < length reads.now.list }
    ensures { result ≡ known_before 0 reads.now.list j }
{
    if j == 0 { 0 } else { reads.get(j - 1).known }
}

/// The corner of the reading before place `j`, and `first` where there is none.
fn corner_before(first: u32, reads: &Reads, j: usize) -> u32
    requires { j < length reads.now.list }
    ensures { result ≡ corner_before first reads.now.list j }
{
    if j == 0 {
        first
    } else {
        reads.get(j - 1).corner
    }
}

/// Whether reading `j` of entry `i` knows what it may.
fn is_known(reads: &Reads, i: usize, j: usize) -> bool
    requires { j < length reads.now.list }
    ensures { IsTrue result ↔ IsKnown i reads.now.list j }
{
    let known = reads.get(j).known;
    let before = known_before(reads, j);
    if known < before {
        return false;
    }
    if i < known as usize {
        return false;
    }
    let last = reads.len() - 1;
    if j < last {
        return true;
    }
    known as usize == i
}

/// Whether it has a corner that it may have.
fn is_corner(
    problem: &Problem,
    table: &RankTable,
    corners: &[u32],
    reads: &Reads,
    i: usize,
    j: usize,
) -> bool
    requires table { HasTable problem.now table.now }
    requires reading { j < length reads.now.list }
    requires known { (reading_at reads.now.list j).known ≤ i }
    requires own { i < length corners.now }
    ensures { (entries : List Entry) → AreCorners problem.now entries i corners.now
        → IsTrue result ↔ IsCornerOf (ranks_of_problem problem.now) (basis_of entries) i reads.now.list j }
{
    let _problem = problem;
    let reading = reads.get(j);
    let before = corner_before(table.count(), reads, j);
    let corner = reading.corner;
    if before < corner {
        return false;
    }
    let high = corners[reading.known as usize];
    if high < corner {
        return false;
    }
    corners[i] <= corner
}

/// Whether a step ends as that of reading `j` of so many is to.
fn is_end(readings: usize, j: usize, end: StepEnd) -> bool
    requires { j < readings }
    ensures { IsTrue result ↔ (end ≡ end_at readings j) }
{
    let is_last = j + 1 == readings;
    match end {
        StepEnd::Zero => false,
        StepEnd::Reduced => !is_last,
        StepEnd::Stuck => is_last,
    }
}

/// Checks reading `j` of entry `i`, at its line, and makes its step: the first fault, where there is one.
fn check_reading(
    alloc: Global,
    block: &Certified,
    table: &RankTable,
    corners: &[u32],
    i: usize,
    j: usize,
    line: u64,
    kept: &mut Vec<Terms>,
    h: &mut Sparse,
) -> Result<Option<Fault>, AllocError>
    requires problem { IsProblem block.now.problem }
    requires table { HasTable block.now.problem table.now }
    requires stored { AreEntries block.now.problem block.now.entries }
    requires place { i < length block.now.entries }
    requires reading { j < length (entry_at block.now.entries i).reads }
    requires corners { AreCorners block.now.problem block.now.entries i corners.now }
    requires line { line ≡ entry_line block.now i + 1 + j }
    requires kept { AreKept block.now.problem kept.old.items }
    requires clean { IsClean block.now.problem (at h.old.terms) }
    requires replayed { IsReplayed block.now i j (at h.old.terms) kept.old.items }
    ensures answer { IfOk result (IsAnswered block.now (known i j ∷ corner i j ∷ run_check i j ∷ [])) }
    ensures replayed { IfOk result (λ o. IfNone o (IsReplayed block.now i (j + 1) (at h.new.terms) kept.new.items)) }
    ensures kept { OnOk result (AreKept block.now.problem kept.new.items) }
    ensures clean { OnOk result (IsClean block.now.problem (at h.new.terms)) }
{
    let entry = block.entries.get(i);
    if !is_known(&entry.reads, i, j) {
        return Ok(Some(Fault {
            line,
            reason: Reason::Known,
        }));
    }
    if !is_corner(&block.problem, table, corners, &entry.reads, i, j) {
        return Ok(Some(Fault {
            line,
            reason: Reason::Corner,
        }));
    }
    let reading = entry.reads.get(j);
    let end = step(
        alloc,
        &block.problem,
        table,
        &block.entries,
        reading,
        kept,
        h,
    )?;
    if !is_end(entry.reads.len(), j, end) {
        return Ok(Some(Fault {
            line,
            reason: Reason::Run,
        }));
    }
    Ok(None)
}

/// Checks the readings of entry `i`, of which the first stands at the line, with a step for each from `h` on: the first fault, where
/// there is one. Else the run's result is left.
pub(crate) fn check_readings(
    alloc: Global,
    block: &Certified,
    table: &RankTable,
    corners: &[u32],
    i: usize,
    line: u64,
    h: &mut Sparse,
) -> Result<Option<Fault>, AllocError>
    requires problem { IsProblem block.now.problem }
    requires table { HasTable block.now.problem table.now }
    requires stored { AreEntries block.now.problem block.now.entries }
    requires place { i < length block.now.entries }
    requires corners { AreCorners block.now.problem block.now.entries i corners.now }
    requires line { line ≡ entry_line block.now i + 1 }
    requires few { line + length (entry_at block.now.entries i).reads < 2 ^ 64 }
    requires clean { IsClean block.now.problem (at h.old.terms) }
    requires start { Agree (ranks_of_problem block.now.problem) (ranks_of_problem block.now.problem).n (at h.old.terms)
        (start block.now.problem block.now.entries (entry_at block.now.entries i).item) }
    ensures answer { IfOk result (IsAnswered block.now (reading_checks i (length (entry_at block.now.entries i).reads) 0)) }
    ensures run { IfOk result (λ o. IfNone o (Agree (ranks_of_problem block.now.problem) (ranks_of_problem block.now.problem).n (at h.new.terms)
        (run block.now.problem block.now.entries (entry_at block.now.entries i).item (entry_at block.now.entries i).reads).poly)) }
    ensures clean { OnOk result (IsClean block.now.problem (at h.new.terms)) }
{
    let mut kept = Vec::new(alloc);
    let readings = block.entries.get(i).reads.len();
    for j in 0..readings {
        let place = line + j as u64;
        if let Some(fault) = check_reading(
            alloc, block, table, corners, i, j, place, &mut kept, h,
        )? {
            return Ok(Some(fault));
        }
    }
    Ok(None)
}
