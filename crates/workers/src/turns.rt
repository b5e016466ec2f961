//! One turn.

ghost use Rattle.std.specs.Prelude.{◌≡◌};
ghost use Rattle.workers.specs.Running.{IsPlaced, IsShut};
ghost use Rattle.workers.specs.Working.{HasBounds, TurnSays};

use crate::gate::Gate;
use crate::runner::Runner;
use crate::turn::Turn;
use reducer_list::{Claim, SharedBoard};

impl Runner {
    /// Carries one ticket from its claim to its end, where there is one. The gate is told of the claim.
    pub(crate) fn turn<G: Gate>(&mut self, board: &SharedBoard, gate: &G, number: u32) -> Turn
        requires placed { IsPlaced board.now self.old }
        requires shut { IsShut self.old.seat.view }
        requires bounds { HasBounds self.old.seat.view self.old.space.reductions }
        ensures placed { IsPlaced board.now self.new }
        ensures shut { IsShut self.new.seat.view }
        ensures numbers { self.new.seat.view.seat.numbers ≡ self.old.seat.view.seat.numbers }
        ensures turn { TurnSays result self.old.seat.view self.new.seat.view self.old.space.reductions self.new.space.reductions }
        ensures bounds { HasBounds self.new.seat.view self.new.space.reductions }
    {
        loop {
            match board.claim(&mut self.seat) {
                Claim::NoneKnown => {
                    if !self.learn(board) {
                        return Turn::Idle;
                    }
                }
                Claim::Claimed(ticket) => {
                    gate.passed(number, ticket);
                    self.carry(board, ticket);
                    return Turn::Worked;
                }
                Claim::Later(_) => {}
            }
        }
    }
}
