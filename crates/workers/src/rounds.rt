//! Rounds of turns.

ghost use Rattle.std.specs.Prelude.{◌≡◌, ◌<◌, ℕ, All, Any, false, true, length, map, slice_index_or};
ghost use Rattle.workers.specs.Working.{CanTurn, numbers_of};
ghost use Rattle.workers.specs.Manned.{IsManned, IsIdle, HasLast};
ghost use Rattle.workers.specs.Rounds.{HasTakenTurns};

use crate::crew::Crew;
use crate::gate::Gate;
use crate::turn::Turn;
use crate::worker::Worker;
use reducer_list::SharedBoard;
use std::thread;
use std::thread::Threads;

/// How many turns a worker takes in a round.
const MOST_TURNS: u32 = 16;

impl Worker {
    /// Takes turns until one finds no ticket, and not more than sixteen.
    fn turns<G: Gate>(&mut self, board: &SharedBoard, gate: &G)
        requires { CanTurn board.now self.old }
        ensures { HasTakenTurns board.now self.old self.new }
    {
        self.rests = false;
        for _ in 0..MOST_TURNS {
            match self.turn(board, gate) {
                Turn::Worked => {}
                Turn::Idle => {
                    self.rests = true;
                    return;
                }
            }
        }
    }
}

/// Each worker takes its turns, in a thread of its own.
fn round<R: Threads + Sync, G: Gate>(
    rt: &R,
    board: &SharedBoard,
    workers: &mut Vec<Worker>,
    gate: &G,
)
    requires some { 0 < length workers.old.items }
    requires ready { All (CanTurn board.now) workers.old.items }
    ensures len { length workers.new.items ≡ length workers.old.items }
    ensures each { (i : ℕ) (d : _) → i < length workers.old.items
        → HasTakenTurns board.now (slice_index_or workers.old.items i d) (slice_index_or workers.new.items i d) }
{
    let count = workers.len();
    thread::for_each_mut(
        rt,
        workers.as_mut_slice(),
        count,
        &|_, worker: &mut Worker|
            requires { CanTurn board.now worker.old }
            ensures { HasTakenTurns board.entry.now worker.old worker.new }
        {
            worker.turns(board, gate);
        },
    );
}

/// Whether the last turn of each worker found no ticket.
fn all_rest(workers: &Vec<Worker>) -> bool
    ensures all { result ≡ true → All (λ w. w.rests ≡ true) workers.now.items }
    ensures some { result ≡ false → Any (λ w. w.rests ≡ false) workers.now.items }
{
    for i in 0..workers.len() {
        if !workers[i].rests() {
            return false;
        }
    }
    true
}

/// Lets every worker take up to sixteen turns a round, until in one round each worker's last turn found no ticket.
pub fn run_rounds<R: Threads + Sync, G: Gate>(rt: &R, crew: &mut Crew, gate: &G)
    requires manned { IsManned crew.old }
    ensures manned { IsManned crew.new }
    ensures board { crew.new.board ≡ crew.old.board }
    ensures numbers { map numbers_of crew.new.workers.items ≡ map numbers_of crew.old.workers.items }
    ensures idle { All IsIdle crew.new.workers.items }
    ensures last { All HasLast crew.new.workers.items }
{
    let Crew { board, workers } = crew;
    loop {
        round(rt, board, workers, gate);
        if all_rest(workers) {
            break;
        }
    }
}
