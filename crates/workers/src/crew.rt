//! All workers.

ghost use Rattle.std.specs.Prelude.{◌≡◌, ◌<◌, ◌≤◌, ◌+◌, ℕ, All, length, map, IfOk};
ghost use Rattle.reducer_list.specs.View.{max_workers};
ghost use Rattle.reducer_list.specs.Calls.{IsAt};
ghost use Rattle.workers.specs.Working.{CanTurn, numbers_of};
ghost use Rattle.workers.specs.Manned.{HasNumber, IsManned};
ghost use Rattle.workers.specs.Rounds.{low_seat};

use crate::worker::Worker;
use reducer_list::{BoardSeat, SharedBoard};
use sparse_poly::Problem;
use std::alloc::{AllocError, Global};

/// The workers, each with a seat at the board.
#[derive(Drop)]
pub struct Crew {
    pub board: SharedBoard,
    pub workers: Vec<Worker>,
}

/// A worker for each number but 0, the greatest first, from the seat that has them all.
fn deal(
    alloc: Global,
    board: &SharedBoard,
    seat: &mut BoardSeat,
    count: u32,
) -> Result<Vec<Worker>, AllocError>
    requires board { IsAt board.now seat.old }
    requires seat { seat.old.view ≡ low_seat board.now.setting count }
    requires some { 0 < count }
    requires few { count ≤ max_workers }
    ensures board { IfOk result (λ _. IsAt board.now seat.new) }
    ensures seat { IfOk result (λ _. seat.new.view ≡ low_seat board.now.setting 1) }
    ensures count { IfOk result (λ ws. length ws.items + 1 ≡ count) }
    ensures ready { IfOk result (λ ws. All (CanTurn board.now) ws.items) }
    ensures none { IfOk result (λ ws. All (λ w. w.reductions ≡ 0) ws.items) }
    ensures numbers { IfOk result (λ ws. (x : ℕ) → 1 ≤ x → x < count → HasNumber x (map numbers_of ws.items)) }
{
    let mut workers = Vec::new(alloc);
    for k in 1..count {
        let given = board.split(seat);
        workers.push(Worker::open(alloc, board, given, count - k)?)?;
    }
    Ok(workers)
}

impl Crew {
    /// A board of the problem with as many workers as it is told, each with one number and all memory of its turns. What is reserved isn't
    /// touched before use.
    pub fn open(alloc: Global, problem: &Problem, workers: u32) -> Result<Crew, AllocError>
        requires some { 1 ≤ workers }
        requires few { workers ≤ max_workers }
        ensures setting { IfOk result (λ c. c.board.setting ≡ record { problem = problem.now; workers = workers }) }
        ensures manned { IfOk result IsManned }
        ensures none { IfOk result (λ c. All (λ w. w.reductions ≡ 0) c.workers.items) }
    {
        let (board, mut seat) = SharedBoard::open(alloc, problem, workers)?;
        let mut list = deal(alloc, &board, &mut seat, workers)?;
        list.push(Worker::open(alloc, &board, seat, 0)?)?;
        Ok(Crew {
            board,
            workers: list,
        })
    }
}
