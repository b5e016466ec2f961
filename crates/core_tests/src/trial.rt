//! The machine of a problem, with what a call has as its condition tested before the call.

ghost use Rattle.std.specs.Prelude.{◌≡◌, Ok, None, false, true, IfOk};
ghost use Rattle.sparse_poly.specs.Shape.{shape_of};
ghost use Rattle.mora_law.specs.Settled.{AllSettled};
ghost use Rattle.run_core.specs.Schedule.{next};

use mono_rank::{RankError, RankTable};
use pair_queue::total;
use run_core::{CoreState, Event};
use sparse_poly::{Polys, Problem};
use std::alloc::{AllocError, Global};
use std::marker::Model;
use std::test::Fail;
use std::thread::Threads;
use tail_reduce::reduced;

/// A problem and the machine of some workers. A contract sees the state of the machine.
#[derive(Drop)]
pub struct Trial {
    problem: Problem,
    workers: u32,
    core: CoreState,
}

impl Model for Trial {
    ghost use Rattle.std.specs.Prelude.{◌≡◌};
    ghost use Rattle.run_core.specs.State.{State};

    ghost Value = { State };

    ghost view = { λ t. t.core };

    ghost invariant = { λ t. (t.core.problem ≡ t.problem) × (t.core.workers ≡ t.workers) };
}

impl Trial {
    /// The opening state.
    pub fn open(alloc: Global, problem: &Problem, workers: u32) -> Result<Trial, Fail> {
        if workers < 1 {
            return Err("no worker")?;
        }
        Ok(Trial {
            problem: problem.copy(alloc)?,
            workers,
            core: CoreState::opening(alloc, problem, workers)?,
        })
    }

    /// An event of the seat with a name.
    pub fn apply(&mut self, seat: u32, event: Event) -> Result<bool, AllocError>
        ensures none { result ≡ Ok false → next seat event self.old ≡ None }
        ensures same { result ≡ Ok false → self.new ≡ self.old }
        ensures problem { self.new.problem ≡ self.old.problem }
    {
        self.core.apply(seat, event)
    }

    /// The machine.
    pub fn core(&self) -> &CoreState
        ensures { result.now ≡ self.now }
    {
        &self.core
    }

    /// The problem.
    pub fn problem(&self) -> &Problem
        ensures { result.now ≡ self.now.problem }
    {
        &self.problem
    }

    /// Whether every ticket is claimed and no hand is open.
    fn is_done(&mut self) -> Result<bool, AllocError>
        ensures { result ≡ Ok true → AllSettled self.new.problem self.new.entries }
    {
        for name in 0..self.workers {
            if self.apply(name, Event::Corner)? {
                return Ok(false);
            }
        }
        let Ok(count) = u32::try_from(self.core.entries().len()) else {
            return Ok(false);
        };
        let tickets = total(self.problem.generator_count(), count);
        Ok(self.core.ticket() == tickets)
    }

    /// The reduced basis by the entries, which have to settle every ticket.
    pub fn basis<R: Threads + Sync>(&mut self, rt: &R, alloc: Global) -> Result<Polys, Fail> {
        if !self.is_done()? {
            return Err("a ticket isn't settled")?;
        }
        let table = table_of(alloc, &self.problem)?;
        Ok(reduced(rt, alloc, &self.problem, &table, self.core.entries())?)
    }
}

/// The ranks of the problem's monomials.
pub fn table_of(alloc: Global, problem: &Problem) -> Result<RankTable, AllocError>
    ensures { IfOk result (λ t. t ≡ shape_of problem.now) }
{
    let _field = problem.field();
    match RankTable::new(alloc, problem.n(), problem.d()) {
        Ok(table) => Ok(table),
        Err(RankError::Memory) => Err(AllocError),
        Err(RankError::TooManyMonomials(_)) => unreachable!(),
    }
}
