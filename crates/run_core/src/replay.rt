//! The run of a hand, made again from its readings.

ghost use Rattle.std.specs.Prelude.{◌≡◌, ◌==◌, ◌+◌, ◌<◌, ◌≤◌, ◌&&◌, not, true, false, take, List, [], ◌∷◌, ◌++◌, length, Option, Some, None, Ok, IfOk};
ghost use Rattle.entry_code.specs.declared.reading.Reading.{Reading as ReadingRecord};
ghost use Rattle.mora_law.specs.Run.{last_known};
ghost use Rattle.mora_law.specs.Legal.{Legal, IsItemOf};
ghost use Rattle.mora_form.specs.State.{HasRun};
ghost use Rattle.run_core.specs.Hand.{Hand, is_skipped, is_zero, has_open, but_stuck};
ghost use Rattle.run_core.specs.Schedule.{is_stuck};
ghost use Rattle.run_core.specs.Work.{Holds};
ghost use Rattle.run_core.specs.Replay.{IsKnownHand, IsRun, IsReplayed, IsAtWork};

use crate::core_seat::CoreHand;
use crate::workspace::Workspace;
use entry_code::{Entries, Item, Reading, Reads};
use mora_law::StepEnd;
use pair_queue::item_of;
use sparse_poly::Problem;
use std::alloc::{AllocError, Global};

impl Workspace {
    /// Learns the entries of a legal list up to a number of them. The run stays.
    fn learn_to(&mut self, problem: &Problem, entries: &Entries, number: usize)
        requires within { number ≤ length entries.now }
        requires known { length self.old.mora.known ≤ number }
        requires legal { Legal problem.now entries.now }
        requires holds { Holds problem.now (take (length self.old.mora.known) entries.now) self.old }
        ensures holds { Holds problem.now (take number entries.now) self.new }
        ensures run { HasRun problem.now (take (length self.old.mora.known) entries.now) self.old.mora → HasRun problem.now (take number entries.now) self.new.mora }
        ensures same { self.new.mora ≡ record self.old.mora { known = self.new.mora.known } }
    {
        for k in self.mora.known()..number {
            self.learn_at(problem, entries, k);
        }
    }

    /// Whether a run over these entries is neither skipped nor at its end.
    fn has_work(&self, problem: &Problem, entries: &Entries, known: usize, item: Item) -> bool
        requires item { IsItemOf (length problem.now.gens) known item }
        requires within { known ≤ length entries.now }
        requires legal { Legal problem.now entries.now }
        requires holds { Holds problem.now (take known entries.now) self.now }
        ensures { result ≡ (not (is_skipped problem.now (take known entries.now) item) && not (is_zero self.now.mora.end)) }
    {
        !self.skips(problem, item) && !is_zero(self.mora.end())
    }

    /// Makes the step of a hand's reading once more.
    fn redo(
        &mut self,
        problem: &Problem,
        entries: &Entries,
        known: usize,
        hand: &CoreHand,
        i: usize,
    )
        requires hand { IsKnownHand problem.now entries.now known hand.now }
        requires within { i < length hand.now.reads }
        requires run { IsRun problem.now entries.now known hand.now i self.old }
        ensures run { IsRun problem.now entries.now known hand.now (i + 1) self.new }
    {
        let reading = hand.reads.get(i);
        self.learn_to(problem, entries, reading.known as usize);
        self.mora.step(&self.table, reading);
    }
}

/// How many entries were known at the first reading of a hand, or are now where there is none.
fn first_known(hand: &CoreHand, known: usize) -> usize
    ensures first { (d : ReadingRecord) (ds : List ReadingRecord) → hand.now.reads ≡ d ∷ ds → result ≡ d.known }
    ensures none { hand.now.reads ≡ [] → result ≡ known }
{
    if hand.reads.len() == 0 {
        return known;
    }
    hand.reads.get(0).known as usize
}

/// A worker that knows the first `known` entries, with the run of a hand by its readings.
fn replay(
    alloc: Global,
    problem: &Problem,
    entries: &Entries,
    known: usize,
    hand: &CoreHand,
) -> Result<Workspace, AllocError>
    requires hand { IsKnownHand problem.now entries.now known hand.now }
    ensures { IfOk result (IsReplayed problem.now (take known entries.now) hand.now) }
{
    let _problem = problem.n();
    let mut worker = Workspace::open(alloc, problem)?;
    worker.learn_to(problem, entries, first_known(hand, known));
    let item = item_of(problem.generator_count(), hand.ticket);
    worker.mora.start(&worker.table, problem, item);
    for i in 0..hand.reads.len() {
        worker.redo(problem, entries, known, hand, i);
    }
    worker.learn_to(problem, entries, known);
    Ok(worker)
}

/// The worker with the run of a hand, where there is still work at it.
pub(crate) fn at_work(
    alloc: Global,
    problem: &Problem,
    entries: &Entries,
    known: usize,
    hand: &Option<CoreHand>,
) -> Result<Option<Workspace>, AllocError>
    requires hand { (h : Hand) → hand.now ≡ Some h → IsKnownHand problem.now entries.now known h }
    ensures none { result ≡ Ok None → has_open problem.now (take known entries.now) hand.now ≡ false }
    ensures some { (w : Workspace) → result ≡ Ok (Some w) → IsAtWork problem.now (take known entries.now) hand.now w }
{
    let _problem = problem.n();
    let Some(hand) = hand else {
        return Ok(None);
    };
    if hand.published {
        return Ok(None);
    }
    let item = item_of(problem.generator_count(), hand.ticket);
    let worker = replay(alloc, problem, entries, known, hand)?;
    if worker.has_work(problem, entries, known, item) {
        Ok(Some(worker))
    } else {
        Ok(None)
    }
}

/// Whether a run ended with Zero.
fn is_zero(end: Option<StepEnd>) -> bool
    ensures { result ≡ is_zero end }
{
    matches!(end, Some(StepEnd::Zero))
}

/// Whether a run ended with Stuck.
fn is_stuck(end: Option<StepEnd>) -> bool
    ensures { result ≡ is_stuck end }
{
    matches!(end, Some(StepEnd::Stuck))
}

/// How many entries the last reading knew, or 0 where there is none.
fn last_known(reads: &Reads) -> u32
    ensures { result ≡ last_known 0 reads.now.list }
{
    if reads.len() == 0 {
        return 0;
    }
    reads.get(reads.len() - 1).known
}

/// Whether a run is stuck by a last reading that knew `known` entries, which are all.
pub(crate) fn is_publishable(worker: &Workspace, known: u32, entries: usize) -> bool
    ensures { result ≡ (known == entries && (is_stuck worker.now.mora.end && last_known 0 worker.now.mora.reads == known)) }
{
    let stuck = is_stuck(worker.mora.end());
    let last = last_known(worker.mora.readings());
    known as usize == entries && stuck && last == known
}

/// The readings of a run with one more, which replaces the last one where that gave Stuck.
pub(crate) fn more_reads(
    alloc: Global,
    worker: &Workspace,
    reading: Reading,
) -> Result<Reads, AllocError>
    ensures { IfOk result (λ l. l.list ≡ but_stuck worker.now.mora.end worker.now.mora.reads ++ reading ∷ []) }
{
    let old = worker.mora.readings();
    let count = if is_stuck(worker.mora.end()) {
        old.len().saturating_sub(1)
    } else {
        old.len()
    };
    let mut reads = first_reads(alloc, old, count)?;
    reads.push(reading)?;
    Ok(reads)
}

/// A copy of the first readings.
fn first_reads(alloc: Global, from: &Reads, count: usize) -> Result<Reads, AllocError>
    requires { count ≤ length from.now.list }
    ensures { IfOk result (λ l. l.list ≡ take count from.now.list) }
{
    let mut reads = Reads::room(alloc, count)?;
    for i in 0..count {
        reads.push(from.get(i))?;
    }
    Ok(reads)
}
