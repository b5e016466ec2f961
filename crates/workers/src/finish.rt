//! How a crew ends.

ghost use Rattle.std.specs.Prelude.{◌≡◌, ◌+◌, ◌≤◌, ◌∷◌, All, map, false, true, length, IfOk};
ghost use Rattle.entry_code.specs.Entry.{HasRoom};
ghost use Rattle.mora_law.specs.Legal.{Legal};
ghost use Rattle.run_core.specs.Idle.{SettlesAll};
ghost use Rattle.reducer_list.specs.View.{is_busy, top};
ghost use Rattle.reducer_list.specs.Calls.{IsAt};
ghost use Rattle.reducer_list.specs.Steps.{LastIdle};
ghost use Rattle.workers.specs.Working.{IsCounted, numbers_of};
ghost use Rattle.workers.specs.Manned.{IsManned, IsIdle, HasLast, HasEvery, KnowsOf, AreCounts};
ghost use Rattle.workers.specs.Rounds.{CanEnd, IsLegalView, HasGathered};

use crate::crew::Crew;
use crate::runner::Runner;
use crate::worker::Worker;
use entry_code::{Entries, Entry};
use reducer_list::{BoardSeat, SharedBoard};
use run_core::{Counts, Finished, copy_entry};
use std::alloc::{AllocError, Global};

/// The counts of the workers, in their order.
fn counts_of(alloc: Global, workers: &Vec<Worker>) -> Result<Counts, AllocError>
    ensures counts { IfOk result (λ l. l ≡ map (λ w. w.reductions) workers.now.items) }
    ensures counted { IfOk result (λ _. All (λ w. IsCounted w × IsLegalView w.seat.view) workers.now.items) }
{
    let mut counts = Counts::new(alloc);
    for i in 0..workers.len() {
        counts.push(workers[i].reductions())?;
    }
    Ok(counts)
}

/// All seats in one.
fn gather(board: &SharedBoard, seat: &mut BoardSeat, mut others: Vec<Worker>)
    requires board { IsAt board.now seat.old }
    requires shut { is_busy seat.old.view ≡ false }
    requires idle { seat.old.view.seat.idle ≡ true }
    requires legal { IsLegalView seat.old.view }
    requires others { All (CanEnd board.now) others.items }
    requires numbers { HasEvery board.now.setting.workers (seat.old.view.seat.numbers ∷ map numbers_of others.items) }
    requires last { length others.items ≡ 0 → LastIdle seat.old.view }
    ensures board { IsAt board.now seat.new }
    ensures gathered { HasGathered seat.old.view others.items seat.new.view }
{
    while let Some(next) = others.pop() {
        let Worker { runner, .. } = next;
        board.join(seat, runner.seat);
    }
}

/// The whole list that a seat knows.
fn recall_all(
    alloc: Global,
    board: &SharedBoard,
    seat: &mut BoardSeat,
    words: &mut [u64],
    room: &mut Entry,
) -> Result<Entries, AllocError>
    requires board { IsAt board.now seat.old }
    requires count { seat.old.view.seat.known ≡ length seat.old.view.list }
    requires words { top board.now.setting + 4 ≤ length words.old }
    requires room { HasRoom (top board.now.setting) room.old }
    ensures { IfOk result (λ l. l ≡ seat.old.view.list) }
{
    let mut entries = Entries::new(alloc);
    for i in 0..seat.known() {
        board.recall(seat, i, words, room);
        entries.push(copy_entry(alloc, room)?)?;
    }
    Ok(entries)
}

impl Crew {
    /// Joins the seats and recalls the whole list, which is legal and settles every ticket. The counts are those of the workers, in their
    /// order. After want of memory the crew is gone.
    pub fn finish(self, alloc: Global) -> Result<Finished, AllocError>
        requires manned { IsManned self }
        requires idle { All IsIdle self.workers.items }
        requires last { length self.workers.items ≡ 1 → All HasLast self.workers.items }
        ensures legal { IfOk result (λ f. Legal self.board.setting.problem f.entries) }
        ensures settled { IfOk result (λ f. SettlesAll self.board.setting.problem f.entries) }
        ensures counts { IfOk result (λ f. f.reductions ≡ map (λ w. w.reductions) self.workers.items) }
        ensures bounds { IfOk result (λ f. AreCounts self.board.setting.problem f.entries f.reductions) }
        ensures whole { IfOk result (λ f. All (KnowsOf f.entries) self.workers.items) }
    {
        let Crew { board, mut workers } = self;
        let reductions = counts_of(alloc, &workers)?;
        let Some(first) = workers.pop() else {
            unreachable!()
        };
        let Worker { runner, .. } = first;
        let Runner {
            mut seat,
            mut words,
            mut room,
            ..
        } = runner;
        gather(&board, &mut seat, workers);
        let entries = recall_all(alloc, &board, &mut seat, words.as_mut_slice(), &mut room)?;
        Ok(Finished {
            entries,
            reductions,
        })
    }
}
