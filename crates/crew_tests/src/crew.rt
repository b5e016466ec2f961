//! Any number of workers, and one worker turn by turn.

ghost use Rattle.std.specs.Prelude.{◌≤◌, IfOk};
ghost use Rattle.mora_law.specs.Legal.{Legal};
ghost use Rattle.run_core.specs.Idle.{SettlesAll};
ghost use Rattle.reducer_list.specs.View.{max_workers};
ghost use Rattle.workers.specs.Working.{CanTurn};
ghost use Rattle.workers.specs.Manned.{IsManned};

use crate::problems::{CURVE, JACOBIAN, NOTHING, TWICE, Written, problem};
use entry_code::{Entries, Item};
use mono_rank::RankTable;
use reducer_list::SharedBoard;
use run_core::Finished;
use sparse_poly::Problem;
use std::alloc::{AllocError, Global};
use std::test::Fail;
use std::thread::Threads;
use workers::{Crew, Gate, OpenGate, Turn, Worker, run_rounds};

/// What so many workers make of a problem.
pub fn solve<R: Threads + Sync, G: Gate>(
    rt: &R,
    alloc: Global,
    problem: &Problem,
    workers: u32,
    gate: &G,
) -> Result<Finished, AllocError>
    requires some { 1 ≤ workers }
    requires few { workers ≤ max_workers }
    ensures legal { IfOk result (λ f. Legal problem.now f.entries) }
    ensures settled { IfOk result (λ f. SettlesAll problem.now f.entries) }
{
    let mut crew = Crew::open(alloc, problem, workers)?;
    run_rounds(rt, &mut crew, gate);
    let finished = crew.finish(alloc)?;
    Ok(finished)
}

/// Whether the monomial of a rank is a multiple of the lead of an entry.
fn is_multiple(table: &RankTable, entries: &Entries, rank: u32) -> bool {
    (0..entries.len()).any(|i| {
        let terms = &entries.get(i).terms;
        terms.len() > 0
            && terms.get(0).rank < table.count()
            && rank < table.count()
            && table.divides_rank(terms.get(0).rank, rank)
    })
}

/// How many monomials are multiples of no lead.
fn dimension(table: &RankTable, entries: &Entries) -> usize {
    (0..table.count())
        .filter(|rank| !is_multiple(table, entries, *rank))
        .count()
}

/// The degree, the generators and the dimension of an example.
const EXAMPLES: &[(u32, &[Written], usize)] = &[(6, JACOBIAN, 11), (6, TWICE, 11), (4, CURVE, 3)];

#[test]
fn any_number_of_workers_leaves_one_staircase(rt: HostRuntime) -> Result<(), Fail> {
    for (d, gens, size) in EXAMPLES {
        let problem = problem(rt.alloc(), *d, gens)?;
        let table = RankTable::new(rt.alloc(), 2, *d)?;
        for workers in [1, 2, 8, 16] {
            let done = solve(&rt, rt.alloc(), &problem, workers, &OpenGate)?;
            assert!(rt;
                dimension(&table, &done.entries) == *size,
                "{workers} workers"
            );
            assert!(rt; done.reductions.len() == workers as usize);
        }
    }
    Ok(())
}

/// Whether the entries are those of these items.
fn are_of(entries: &Entries, items: &[Item]) -> bool {
    entries.len() == items.len() && (0..entries.len()).all(|i| entries.get(i).item == items[i])
}

/// The degree, the generators, the items of the entries in order, and the steps that reduce.
const ONE_WORKER: &[(u32, &[Written], &[Item], u64)] = &[
    (
        6,
        JACOBIAN,
        &[
            Item::Generator(0),
            Item::Generator(1),
            Item::Pair(0, 1),
            Item::Pair(1, 2),
        ],
        0,
    ),
    (4, CURVE, &[Item::Generator(0), Item::Generator(1)], 2),
    (4, NOTHING, &[], 0),
];

#[test]
fn one_worker_claims_in_order(rt: HostRuntime) -> Result<(), Fail> {
    for (d, gens, items, reductions) in ONE_WORKER {
        let problem = problem(rt.alloc(), *d, gens)?;
        let done = solve(&rt, rt.alloc(), &problem, 1, &OpenGate)?;
        assert!(rt; are_of(&done.entries, items), "modulo degree {d} + 1");
        assert!(rt; done.reductions.len() == 1 && done.reductions.get(0) == *reductions);
    }
    Ok(())
}

/// Whether each of so many turns of a worker carries a ticket to its end.
fn carries(board: &SharedBoard, worker: &mut Worker, turns: u32) -> bool
    requires { CanTurn board.now worker.old }
    ensures { CanTurn board.now worker.new }
{
    for _ in 0..turns {
        if worker.turn(board, &OpenGate) != Turn::Worked {
            return false;
        }
    }
    true
}

/// Whether a worker carries so many tickets, and finds no other.
fn carries_all(crew: Crew, tickets: u32) -> bool
    requires { IsManned crew }
{
    let Crew { board, mut workers } = crew;
    let Some(mut worker) = workers.pop() else {
        return false;
    };
    carries(&board, &mut worker, tickets) && worker.turn(&board, &OpenGate) == Turn::Idle
}

/// Two generators and four entries have eight tickets, so the ninth turn finds none.
#[test]
fn a_turn_is_one_ticket(rt: HostRuntime) -> Result<(), Fail> {
    let problem = problem(rt.alloc(), 6, JACOBIAN)?;
    let crew = Crew::open(rt.alloc(), &problem, 1)?;
    assert!(rt; carries_all(crew, 8));
    Ok(())
}
