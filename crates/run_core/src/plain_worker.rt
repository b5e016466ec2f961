//! What the one worker does at its board.

ghost use Rattle.std.specs.Prelude.{◌≡◌, ◌≢◌, ◌<◌, ◌≤◌, ◌+◌, ◌-◌, ◌^◌, suc, take, length, true, false, Some, Ok, OnOk};
ghost use Rattle.mora_form.specs.State.{HasRun};
ghost use Rattle.mora_law.specs.declared.step_end.StepEnd.TheVariants.{Reduced, Stuck};
ghost use Rattle.mora_law.specs.Legal.{Legal};
ghost use Rattle.mora_law.specs.Tickets.{total};
ghost use Rattle.run_core.specs.State.{count_of};
ghost use Rattle.run_core.specs.Plain.{plain_cornered, plain_published};
ghost use Rattle.run_core.specs.Work.{Holds, IsRunning, HasRunTo, IsReady, HasCounted, HasClaimed};

use crate::plain_board::PlainBoard;
use crate::workspace::{Workspace, has_reduced, is_stuck};
use entry_code::{Entries, Reading};
use mora_law::StepEnd;
use pair_queue::item_of;
use sparse_poly::Problem;
use std::alloc::AllocError;

impl Workspace {
    /// Learns the entry at a place of a legal list, which is the next one.
    pub(crate) fn learn_at(&mut self, problem: &Problem, entries: &Entries, number: usize)
        requires next { number < length entries.now }
        requires legal { Legal problem.now entries.now }
        requires holds { Holds problem.now (take number entries.now) self.old }
        ensures holds { Holds problem.now (take (suc number) entries.now) self.new }
        ensures run { HasRun problem.now (take number entries.now) self.old.mora → HasRun problem.now (take (suc number) entries.now) self.new.mora }
        ensures mora { self.new.mora ≡ record self.old.mora { known = self.new.mora.known } }
        ensures count { self.new.reductions ≡ self.old.reductions }
    {
        let _problem = problem.n();
        self.learn(problem, entries.get(number));
    }

    /// Reads the corner, and makes one step by it.
    pub(crate) fn step(&mut self, board: &mut PlainBoard) -> StepEnd
        requires running { IsRunning board.old self.old }
        ensures end { self.new.mora.end ≡ Some result }
        ensures board { board.new ≡ plain_cornered board.old }
        ensures one_more { length self.new.mora.reads ≡ suc (length self.old.mora.reads) }
        ensures reduced { result ≡ Reduced → IsRunning board.new self.new }
        ensures run { HasRunTo board.new self.new result }
        ensures count { self.new.reductions ≡ self.old.reductions }
    {
        let known = board.entries().len() as u32;
        let corner = board.corner(self.cover.corner());
        self.mora.step(&self.table, Reading { known, corner })
    }

    /// Steps until one doesn't reduce, and counts those that did.
    pub(crate) fn run(&mut self, board: &mut PlainBoard) -> StepEnd
        requires running { IsRunning board.old self.old }
        requires small { self.old.reductions < 2 ^ 63 }
        ensures over { result ≢ Reduced }
        ensures end { self.new.mora.end ≡ Some result }
        ensures run { HasRunTo board.new self.new result }
        ensures board { board.new ≡ record board.old { corner = board.new.corner; hand = board.new.hand } }
        ensures count { self.new.reductions ≡ self.old.reductions + (length self.new.mora.reads - 1) }
        ensures few { length self.new.mora.reads ≤ count_of board.old.problem + 1 }
    {
        let mut end = self.step(board);
        while has_reduced(end) {
            end = self.step(board);
        }
        self.reductions += (self.mora.readings().len() - 1) as u64;
        end
    }

    /// Publishes the entry of a run that was stuck, and learns it.
    pub(crate) fn publish(
        &mut self,
        problem: &Problem,
        board: &mut PlainBoard,
    ) -> Result<(), AllocError>
        requires problem { problem.now ≡ board.old.problem }
        requires stuck { self.old.mora.end ≡ Some Stuck }
        requires run { HasRunTo board.old self.old Stuck }
        ensures ready { OnOk result (IsReady board.new self.new) }
        ensures board { OnOk result (board.new ≡ plain_published board.old) }
        ensures count { self.new.reductions ≡ self.old.reductions }
    {
        let _problem = problem.n();
        let number = board.publish(self.mora.draft())?;
        self.learn_at(problem, board.entries(), number as usize);
        Ok(())
    }

    /// Carries the ticket that was claimed to its end.
    pub(crate) fn work(
        &mut self,
        problem: &Problem,
        board: &mut PlainBoard,
        ticket: u64,
    ) -> Result<(), AllocError>
        requires problem { problem.now ≡ board.old.problem }
        requires generators { length problem.now.gens < 2 ^ 32 }
        requires claimed { HasClaimed board.old self.old ticket }
        ensures ready { OnOk result (IsReady board.new self.new) }
        ensures count { OnOk result (HasCounted board.new self.new) }
        ensures problem { OnOk result (board.new.problem ≡ board.old.problem) }
        ensures ticket { OnOk result (board.new.ticket ≡ board.old.ticket) }
    {
        let item = item_of(problem.gens().len() as u32, ticket);
        if self.skips(problem, item) {
            return Ok(());
        }
        self.mora.start(&self.table, problem, item);
        if is_stuck(self.run(board)) {
            self.publish(problem, board)
        } else {
            Ok(())
        }
    }

    /// Claims a ticket and carries it to its end, and tells whether there was one.
    pub(crate) fn turn(
        &mut self,
        problem: &Problem,
        board: &mut PlainBoard,
    ) -> Result<bool, AllocError>
        requires problem { problem.now ≡ board.old.problem }
        requires generators { length problem.now.gens < 2 ^ 32 }
        requires ready { IsReady board.old self.old }
        requires count { HasCounted board.old self.old }
        ensures ready { OnOk result (IsReady board.new self.new) }
        ensures count { OnOk result (HasCounted board.new self.new) }
        ensures problem { OnOk result (board.new.problem ≡ board.old.problem) }
        ensures more { result ≡ Ok true → board.new.ticket ≡ suc board.old.ticket }
        ensures none { result ≡ Ok false → (total (length board.new.problem.gens) (length board.new.entries) ≤ board.new.ticket) × (board.new ≡ board.old) }
    {
        let _problem = problem.n();
        let Some(ticket) = board.claim() else {
            return Ok(false);
        };
        self.work(problem, board, ticket)?;
        Ok(true)
    }
}
