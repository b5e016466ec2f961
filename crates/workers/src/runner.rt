//! A worker at its board, and how it carries a ticket to its end.

ghost use Rattle.std.specs.Prelude.{◌≡◌, ◌≢◌, suc, ◌<◌, ◌^◌, false, true, length, Some, MatchBool};
ghost use Rattle.mora_law.specs.declared.step_end.StepEnd.TheVariants.{Reduced, Stuck};
ghost use Rattle.mora_form.specs.State.{HasRun};
ghost use Rattle.reducer_list.specs.Calls.{HasLooked};
ghost use Rattle.workers.specs.Running.{IsPlaced, IsShut, IsRunning, HasStepped, IsAsBefore, HasLearnt, HasPosted, IsLonger, HasClaimed, HasCarried};

use entry_code::{Entry, Reading};
use mora_law::StepEnd;
use pair_queue::item_of;
use reducer_list::{BoardSeat, Look, Publish, SharedBoard};
use run_core::{Workspace, has_reduced, is_stuck};

/// A seat, the workspace that holds what it knows, and room for an entry and its words. No call takes memory.
#[derive(Drop)]
pub(crate) struct Runner {
    pub(crate) seat: BoardSeat,
    pub(crate) space: Workspace,
    pub(crate) words: Vec<u64>,
    pub(crate) room: Entry,
}

impl Runner {
    /// Learns the next entry of the list, where there is one. An open run stays.
    pub(crate) fn learn(&mut self, board: &SharedBoard) -> bool
        requires placed { IsPlaced board.now self.old }
        ensures placed { IsPlaced board.now self.new }
        ensures look { MatchBool result (HasLearnt self.old.seat.view self.new.seat.view) (HasLooked self.old.seat.view self.new.seat.view) }
        ensures run { HasRun self.old.seat.view.setting.problem self.old.seat.view.list self.old.space.mora
            → HasRun self.new.seat.view.setting.problem self.new.seat.view.list self.new.space.mora }
        ensures mora { self.new.space.mora ≡ record self.old.space.mora { known = self.new.space.mora.known } }
        ensures count { self.new.space.reductions ≡ self.old.space.reductions }
    {
        match board.look(&mut self.seat, self.words.as_mut_slice(), &mut self.room) {
            Look::Nothing => false,
            Look::Learnt(_) => {
                self.space.learn(board.problem(), &self.room);
                true
            }
        }
    }

    /// Reads the corner, and makes one step by it.
    fn step(&mut self, board: &SharedBoard) -> StepEnd
        requires running { IsRunning board.now self.old }
        ensures stepped { HasStepped board.now self.new result }
        ensures seat { IsAsBefore self.old.seat.view self.new.seat.view }
        ensures more { self.old.space.mora.end ≢ Some Stuck → length self.new.space.mora.reads ≡ suc (length self.old.space.mora.reads) }
        ensures count { self.new.space.reductions ≡ self.old.space.reductions }
    {
        let corner = board.corner(&mut self.seat, self.space.cover.corner());
        let known = self.seat.known();
        self.space
            .mora
            .step(&self.space.table, Reading { known, corner })
    }

    /// Steps until one doesn't reduce.
    fn run(&mut self, board: &SharedBoard) -> StepEnd
        requires running { IsRunning board.now self.old }
        ensures over { result ≢ Reduced }
        ensures stepped { HasStepped board.now self.new result }
        ensures seat { IsAsBefore self.old.seat.view self.new.seat.view }
        ensures count { self.new.space.reductions ≡ self.old.space.reductions }
    {
        let mut end = self.step(board);
        while has_reduced(end) {
            end = self.step(board);
        }
        end
    }

    /// Publishes the entry of a run that is stuck, and knows it. Where the list was longer, the next entry of it is known, and the run is
    /// open still.
    fn publish(&mut self, board: &SharedBoard) -> bool
        requires stuck { HasStepped board.now self.old Stuck }
        ensures placed { IsPlaced board.now self.new }
        ensures done { MatchBool result (HasPosted self.old self.new) (IsLonger board.now self.old self.new) }
        ensures count { self.new.space.reductions ≡ self.old.space.reductions }
    {
        match board.publish(&mut self.seat, self.space.mora.draft()) {
            Publish::Published(place) => {
                board.recall(
                    &mut self.seat,
                    place,
                    self.words.as_mut_slice(),
                    &mut self.room,
                );
                self.space.learn(board.problem(), &self.room);
                true
            }
            Publish::Longer => {
                let learnt = self.learn(board);
                prove!(learnt);
                false
            }
        }
    }

    /// Steps until one doesn't reduce, and publishes where that one was stuck. The ticket is at its end, or the run is open still, and one
    /// more entry is known.
    fn advance(&mut self, board: &SharedBoard) -> bool
        requires running { IsRunning board.now self.old }
        ensures placed { IsPlaced board.now self.new }
        ensures done { MatchBool result (HasPosted self.old self.new) (IsLonger board.now self.old self.new) }
        ensures count { self.new.space.reductions ≡ self.old.space.reductions }
    {
        if is_stuck(self.run(board)) {
            self.publish(board)
        } else {
            true
        }
    }

    /// Carries an open run to its end, and counts its steps that reduced.
    fn work(&mut self, board: &SharedBoard)
        requires running { IsRunning board.now self.old }
        requires small { self.old.space.reductions < 2 ^ 63 }
        ensures placed { IsPlaced board.now self.new }
        ensures shut { IsShut self.new.seat.view }
        ensures carried { HasCarried self.old self.new }
    {
        loop {
            if self.advance(board) {
                break;
            }
        }
        self.space.reductions += (self.space.mora.readings().len() - 1) as u64;
    }

    /// Begins the run of the ticket that was claimed, unless its pair is skipped.
    fn begin(&mut self, board: &SharedBoard, ticket: u64) -> bool
        requires claimed { HasClaimed board.now self.old ticket }
        ensures placed { IsPlaced board.now self.new }
        ensures begun { MatchBool result (IsRunning board.now self.new) (IsShut self.new.seat.view) }
        ensures seat { self.new.seat ≡ self.old.seat }
        ensures count { self.new.space.reductions ≡ self.old.space.reductions }
    {
        let problem = board.problem();
        let item = item_of(problem.generator_count(), ticket);
        if self.space.skips(problem, item) {
            return false;
        }
        self.space.mora.start(&self.space.table, problem, item);
        true
    }

    /// Carries the ticket that was claimed to its end.
    pub(crate) fn carry(&mut self, board: &SharedBoard, ticket: u64)
        requires claimed { HasClaimed board.now self.old ticket }
        requires small { self.old.space.reductions < 2 ^ 63 }
        ensures placed { IsPlaced board.now self.new }
        ensures shut { IsShut self.new.seat.view }
        ensures carried { HasCarried self.old self.new }
    {
        if self.begin(board, ticket) {
            self.work(board);
        }
    }
}
