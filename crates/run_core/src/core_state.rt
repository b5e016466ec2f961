//! The machine of several workers.

ghost use Rattle.std.specs.Prelude.{◌≡◌, ◌≤◌, is_some, IfOk, OnOk, OnErr};
ghost use Rattle.run_core.specs.State.{opening};
ghost use Rattle.run_core.specs.Sound.{IsSound};
ghost use Rattle.run_core.specs.Schedule.{next, or_same};

use crate::event::Event;
use crate::machine::Machine;
use entry_code::Entries;
use sparse_poly::Problem;
use std::alloc::{AllocError, Global};
use std::marker::Model;

/// The machine of several workers: a problem, the number of workers, the entries, the corner and the ticket number that all share, and
/// of each seat its worker numbers, how many entries it knows, the greatest ticket number it has seen, its hand, its idle mark, and its
/// counts of tickets claimed and of steps published. Every event that a seat makes is one call.
#[derive(Drop)]
pub struct CoreState {
    machine: Machine,
}

impl Model for CoreState {
    ghost use Rattle.run_core.specs.State.{State};
    ghost use Rattle.run_core.specs.Sound.{IsSound};

    ghost Value = { State };

    ghost view = { λ s. s.machine };

    ghost invariant = { λ s. IsSound s.machine };
}

impl CoreState {
    /// No entries, the corner past all monomials, no ticket claimed, and one seat with all numbers.
    pub fn opening(alloc: Global, problem: &Problem, workers: u32) -> Result<CoreState, AllocError>
        requires { 1 ≤ workers }
        ensures { IfOk result (λ s. s ≡ opening problem.now workers) }
    {
        let _problem = problem.n();
        Ok(CoreState {
            machine: Machine::opening(alloc, problem, workers)?,
        })
    }

    /// An event of the seat with a name, which is its least worker number. The answer is false exactly where there is no such seat or
    /// the condition of the event doesn't hold; then the state is as before, and so it is where memory ran out. Else the state is the
    /// one that the event makes.
    pub fn apply(&mut self, seat: u32, event: Event) -> Result<bool, AllocError>
        ensures answer { IfOk result (λ made. made ≡ is_some (next seat event self.old)) }
        ensures state { OnOk result (self.new ≡ or_same self.old (next seat event self.old)) }
        ensures memory { OnErr result (self.new ≡ self.old) }
    {
        self.machine.step(seat, event)
    }

    /// The entries.
    pub fn entries(&self) -> &Entries
        ensures value { result.now ≡ self.now.entries }
        ensures sound { IsSound self.now }
    {
        self.machine.entries()
    }

    /// The corner.
    pub fn corner(&self) -> u32
        ensures value { result ≡ self.now.corner }
        ensures sound { IsSound self.now }
    {
        self.machine.corner()
    }

    /// The ticket number.
    pub fn ticket(&self) -> u64
        ensures value { result ≡ self.now.ticket }
        ensures sound { IsSound self.now }
    {
        self.machine.ticket()
    }
}
