//! One worker.

ghost use Rattle.std.specs.Prelude.{◌≡◌, [], ◌∷◌, IfOk};
ghost use Rattle.reducer_list.specs.Calls.{IsAt};
ghost use Rattle.workers.specs.Working.{CanTurn, HasTurned, IsCounted, numbers_of};
ghost use Rattle.workers.specs.Rounds.{seat_with, IsLegalView};

use crate::gate::Gate;
use crate::runner::Runner;
use crate::turn::Turn;
use entry_code::Entry;
use reducer_list::{BoardSeat, SharedBoard};
use run_core::Workspace;
use std::alloc::{AllocError, Global};
use std::marker::Model;

/// A worker: a seat with one number, and all memory of its turns. A contract sees the seat, how many of its steps reduced, and whether its
/// last turn found no ticket.
#[derive(Drop)]
pub struct Worker {
    pub(crate) runner: Runner,
    pub(crate) number: u32,
    pub(crate) rests: bool,
}

impl Model for Worker {
    ghost use Rattle.std.specs.Prelude.{◌≡◌, [], ◌∷◌};
    ghost use Rattle.workers.specs.Working.{Working, HasBounds};
    ghost use Rattle.workers.specs.Running.{IsEquipped, IsShut};

    ghost Value = { Working };

    ghost view = { λ w. record { seat = w.runner.seat; reductions = w.runner.space.reductions; rests = w.rests } };

    ghost invariant = { λ w. IsEquipped w.runner × IsShut w.runner.seat.view × HasBounds w.runner.seat.view w.runner.space.reductions × (w.runner.seat.view.seat.numbers ≡ w.number ∷ []) };
}

impl Worker {
    /// A worker that knows nothing, at a seat that knows nothing and has this number.
    pub(crate) fn open(
        alloc: Global,
        board: &SharedBoard,
        seat: BoardSeat,
        number: u32,
    ) -> Result<Worker, AllocError>
        requires board { IsAt board.now seat }
        requires seat { seat.view ≡ seat_with board.now.setting (number ∷ []) }
        ensures seat { IfOk result (λ w. w.seat ≡ seat) }
        ensures count { IfOk result (λ w. w.reductions ≡ 0) }
    {
        let problem = board.problem();
        let _problem = problem.n();
        let _generators = problem.generator_count();
        let top = board.table().count();
        let space = Workspace::open(alloc, problem)?;
        let words = Vec::from_elem(alloc, 0u64, top as usize + 4)?;
        let room = Entry::room(alloc, top)?;
        Ok(Worker {
            runner: Runner {
                seat,
                space,
                words,
                room,
            },
            number,
            rests: false,
        })
    }

    /// Carries one ticket from its claim to its end.
    pub fn turn<G: Gate>(&mut self, board: &SharedBoard, gate: &G) -> Turn
        requires ready { CanTurn board.now self.old }
        ensures ready { CanTurn board.now self.new }
        ensures numbers { numbers_of self.new ≡ numbers_of self.old }
        ensures turn { HasTurned self.old result self.new }
        ensures counted { IsCounted self.new }
        ensures rests { self.new.rests ≡ self.old.rests }
    {
        self.runner.turn(board, gate, self.number)
    }

    /// How many of its steps reduced: at most as many as monomials for each ticket that its seat claimed, and at least those of the entries
    /// that it published.
    pub fn reductions(&self) -> u64
        ensures value { result ≡ self.now.reductions }
        ensures counted { IsCounted self.now }
        ensures legal { IsLegalView self.now.seat.view }
    {
        self.runner.space.reductions
    }

    /// Whether its last turn found no ticket.
    pub fn rests(&self) -> bool
        ensures { result ≡ self.now.rests }
    {
        self.rests
    }
}
