// The answer of an ideal.
ghost use Rattle.std.specs.Prelude.{◌≡◌, ◌<◌, ◌≤◌, length, map, All, Contains, IfOk};
ghost use Rattle.std.specs.Bool.{OnTrue, OnFalse};
ghost use Rattle.local_order.specs.Shape.{count};
ghost use Rattle.sparse_poly.specs.Shape.{shape_of};
ghost use Rattle.mono_rank.specs.Rank.{mono_of_rank};
ghost use Rattle.sparse_poly.specs.Ideal.{Problem as IdealProblem, IsProblem, Fits};
ghost use Rattle.mora_law.specs.Legal.{Legal};
ghost use Rattle.mora_law.specs.Settled.{AllSettled};
ghost use Rattle.staircase.specs.Stair.{IsStairOf};
ghost use Rattle.tail_reduce.specs.Divisors.{leads_of};
ghost use Rattle.text_out.specs.Answers.{IsInRing};
ghost use Rattle.local_std.specs.Answer.{IsAnswerOf};
ghost use Rattle.local_std.specs.Words.{max_workers};

use entry_code::Entries;
use local_order::Mono;
use mono_rank::{RankError, RankTable};
use run_core::Finished;
use sparse_poly::Problem;
use staircase::Stair;
use std::alloc::{AllocError, Global};
use std::thread::Threads;
use tail_reduce::{lead_ranks, reduced};
use text_out::{Answer, Monos};
use workers::{Crew, Gate, run_rounds};

/// Entries of a problem, which are legal and settle every ticket, with a count for each worker, and the answer of its ideal: by runs
/// of Mora's normal form, of as many workers as are told, in threads on one board.
pub fn answer_of<R: Threads + Sync, G: Gate>(
    rt: &R,
    alloc: Global,
    problem: &Problem,
    workers: u32,
    gate: &G,
) -> Result<(Finished, Answer), AllocError>
    requires some { 1 ≤ workers }
    requires few { workers ≤ max_workers }
    ensures problem { IfOk result (λ r. IsProblem problem.now) }
    ensures legal { IfOk result (λ r. Legal problem.now r.0.entries) }
    ensures settled { IfOk result (λ r. AllSettled problem.now r.0.entries) }
    ensures workers { IfOk result (λ r. length r.0.reductions ≡ workers) }
    ensures value { IfOk result (λ r. IsAnswerOf problem.now r.1) }
    ensures ring { IfOk result (λ r. IsInRing problem.now.p problem.now.n r.1) }
{
    // A problem is within its limits, which its field is lent with.
    let _field = problem.field();
    let mut crew = Crew::open(alloc, problem, workers)?;
    run_rounds(rt, &mut crew, gate);
    let finished = crew.finish(alloc)?;
    let answer = answer_by(rt, alloc, problem, &finished.entries)?;
    Ok((finished, answer))
}

/// The answer by legal entries that settle every ticket.
fn answer_by<R: Threads + Sync>(
    rt: &R,
    alloc: Global,
    problem: &Problem,
    entries: &Entries,
) -> Result<Answer, AllocError>
    requires legal { Legal problem.now entries.now }
    requires settled { AllSettled problem.now entries.now }
    ensures value { IfOk result (λ a. IsAnswerOf problem.now a) }
    ensures ring { IfOk result (λ a. IsInRing problem.now.p problem.now.n a) }
{
    // A problem is within its limits, which its field is lent with.
    let _field = problem.field();
    let table = table_of(alloc, problem)?;
    let leads = lead_ranks(alloc, problem, entries)?;
    let stair = Stair::of(alloc, &table, &leads)?;
    match stair.first_missing() {
        Some(rank) => Ok(Answer::TooSmall {
            missing: table.mono(rank),
        }),
        None => Ok(Answer::Fits {
            basis: reduced(rt, alloc, problem, &table, entries)?,
            stair: Monos::from_vec(monomials(alloc, &table, stair.list().as_slice())?),
        }),
    }
}

/// The ranks of the problem's monomials, of which there are never too many.
fn table_of(alloc: Global, problem: &Problem) -> Result<RankTable, AllocError>
    ensures { IfOk result (λ t. t ≡ shape_of problem.now) }
{
    let _field = problem.field();
    match RankTable::new(alloc, problem.n(), problem.d()) {
        Ok(table) => Ok(table),
        Err(RankError::Memory) => Err(AllocError),
        Err(RankError::TooManyMonomials(_)) => unreachable!(),
    }
}

/// The monomials of some ranks.
fn monomials(alloc: Global, table: &RankTable, ranks: &[u32]) -> Result<Vec<Mono>, AllocError>
    requires { All (λ r. r < count table.now) ranks.now }
    ensures { IfOk result (λ v. v.items ≡ map (mono_of_rank table.now) ranks.now) }
{
    let mut monomials = Vec::with_capacity(alloc, ranks.len())?;
    for place in 0..ranks.len() {
        monomials.push(table.mono(ranks[place]))?;
    }
    Ok(monomials)
}

/// Whether the degree fits.
pub fn is_fitting(answer: &Answer) -> bool
    ensures fits { (P : IdealProblem) → IsAnswerOf P answer.now → OnTrue result (Fits P) }
    ensures small { (P : IdealProblem) → IsAnswerOf P answer.now → OnFalse result (Fits P → ⊥) }
{
    match answer {
        Answer::Fits { .. } => true,
        Answer::TooSmall { .. } => false,
    }
}
