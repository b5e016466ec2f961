//! The computation with one worker.

ghost use Rattle.std.specs.Prelude.{◌≡◌, ◌<◌, ◌^◌, [], ◌∷◌, length, IfOk};
ghost use Rattle.mora_law.specs.Legal.{Legal};
ghost use Rattle.run_core.specs.Idle.{SettlesAll};
ghost use Rattle.run_core.specs.Finished.{IsOneCount};

use crate::counts::Counts;
use crate::plain_board::PlainBoard;
use crate::workspace::Workspace;
use entry_code::Entries;
use sparse_poly::Problem;
use std::alloc::{AllocError, Global};

/// What a computation leaves: the entries, and for each worker how many of its steps reduced.
#[derive(Drop)]
pub struct Finished {
    pub entries: Entries,
    pub reductions: Counts,
}

/// The computation with one worker, which claims the tickets in order, and reads the corner before each step of Mora's normal form.
/// The entries are legal and settle every ticket. Each run has at most as many steps that reduce as there are monomials.
pub fn run_plain(alloc: Global, problem: &Problem) -> Result<Finished, AllocError>
    requires { length problem.now.gens < 2 ^ 32 }
    ensures legal { IfOk result (λ f. Legal problem.now f.entries) }
    ensures settled { IfOk result (λ f. SettlesAll problem.now f.entries) }
    ensures count { IfOk result (λ f. IsOneCount problem.now f.entries f.reductions) }
{
    let _problem = problem.n();
    let mut board = PlainBoard::open(alloc, problem);
    let mut worker = Workspace::open(alloc, problem)?;
    let mut more = worker.turn(problem, &mut board)?;
    while more {
        more = worker.turn(problem, &mut board)?;
    }
    leave(alloc, board, worker.reductions)
}

/// The entries of the board with the count of its worker.
fn leave(alloc: Global, board: PlainBoard, count: u64) -> Result<Finished, AllocError>
    ensures entries { IfOk result (λ f. f.entries ≡ board.entries) }
    ensures count { IfOk result (λ f. f.reductions ≡ count ∷ []) }
{
    let mut reductions = Counts::new(alloc);
    reductions.push(count)?;
    Ok(Finished {
        entries: board.into_entries(),
        reductions,
    })
}
