//! The machine of several workers: its state, and what each event does to it.

ghost use Rattle.std.specs.Prelude.{◌≡◌, ◌≢◌, ◌&&◌, ◌<◌, ◌≤◌, ◌==◌, not, true, false, length, Option, Some, None, Ok, IfOk, IfSome, OnOk, OnErr};
ghost use Rattle.run_core.specs.Hand.{but_stuck, hand_end, reads_of};
ghost use Rattle.mora_law.specs.Run.{last_known};
ghost use Rattle.run_core.specs.State.{opening, known_by, is_busy};
ghost use Rattle.run_core.specs.Sound.{IsSound};
ghost use Rattle.run_core.specs.Effects.{with_seat, after_claim, after_corner, learnt, rested, after_publish, after_split, after_join};
ghost use Rattle.run_core.specs.Schedule.{find_seat, is_stuck, next_claim, next_corner, next_look, next_publish, next_split, next_join, next_at, next};
ghost use Rattle.run_core.specs.Replay.{IsAtWork};
ghost use Rattle.run_core.specs.SeatCode.{seat_at, found_at, claim_test, rest_test, publish_test, split_test, join_test, HasStepped};

use crate::core_seat::CoreSeat;
use crate::event::Event;
use crate::plain_board::copy_entry;
use crate::replay::{at_work, is_publishable, more_reads};
use crate::workspace::Workspace;
use entry_code::{Entries, Reading, Reads};
use local_order::monomial_count;
use pair_queue::total;
use sparse_poly::Problem;
use std::alloc::{AllocError, Global};
use std::marker::Model;

/// The problem, the number of workers, the entries, the corner, the ticket number and the seats.
#[derive(Drop)]
pub(crate) struct Machine {
    problem: Problem,
    workers: u32,
    entries: Entries,
    corner: u32,
    ticket: u64,
    seats: Vec<CoreSeat>,
    alloc: Global,
}

impl Model for Machine {
    ghost use Rattle.run_core.specs.State.{State};

    ghost Value = { State };

    ghost view = { λ m. record { problem = m.problem; workers = m.workers; entries = m.entries; corner = m.corner; ticket = m.ticket; seats = m.seats.items } };
}

impl Machine {
    /// The opening state.
    pub(crate) fn opening(
        alloc: Global,
        problem: &Problem,
        workers: u32,
    ) -> Result<Machine, AllocError>
        ensures { IfOk result (λ m. m ≡ opening problem.now workers) }
    {
        let mut seats = Vec::new(alloc);
        seats.push(CoreSeat::fresh(alloc, workers)?)?;
        Ok(Machine {
            problem: problem.copy(alloc)?,
            workers,
            entries: Entries::new(alloc),
            corner: monomial_count(problem.n(), problem.d()) as u32,
            ticket: 0,
            seats,
            alloc,
        })
    }

    /// The entries.
    pub(crate) fn entries(&self) -> &Entries
        ensures { result.now ≡ self.now.entries }
    {
        &self.entries
    }

    /// The corner.
    pub(crate) fn corner(&self) -> u32
        ensures { result ≡ self.now.corner }
    {
        self.corner
    }

    /// The ticket number.
    pub(crate) fn ticket(&self) -> u64
        ensures { result ≡ self.now.ticket }
    {
        self.ticket
    }

    /// The place of the seat with a name.
    fn find(&self, name: u32) -> Option<usize>
        ensures none { result ≡ None → find_seat name 0 self.now.seats ≡ None }
        ensures some { IfSome result (λ i. (i < length self.now.seats) × (find_seat name 0 self.now.seats ≡ Some (found_at self.now i))) }
    {
        for i in 0..self.seats.len() {
            if self.seats[i].is_named(name) {
                return Some(i);
            }
        }
        None
    }

    /// The worker with the run of the hand at a place, where that is open.
    fn work(&self, i: usize) -> Result<Option<Workspace>, AllocError>
        requires sound { IsSound self.now }
        requires place { i < length self.now.seats }
        ensures none { result ≡ Ok None → is_busy self.now (seat_at self.now i) ≡ false }
        ensures some { (w : Workspace) → result ≡ Ok (Some w) → IsAtWork self.now.problem (known_by self.now (seat_at self.now i)) (seat_at self.now i).hand w }
    {
        let seat = &self.seats[i];
        at_work(
            self.alloc,
            &self.problem,
            &self.entries,
            seat.known as usize,
            &seat.hand,
        )
    }

    /// Whether the hand at a place is open.
    fn is_busy(&self, i: usize) -> Result<bool, AllocError>
        requires sound { IsSound self.now }
        requires place { i < length self.now.seats }
        ensures { IfOk result (λ b. b ≡ is_busy self.now (seat_at self.now i)) }
    {
        let work = self.work(i)?;
        Ok(work.is_some())
    }

    /// Whether the seat may claim.
    fn can_claim(&self, i: usize) -> Result<bool, AllocError>
        requires sound { IsSound self.now }
        requires place { i < length self.now.seats }
        ensures { IfOk result (λ b. b ≡ claim_test self.now (seat_at self.now i)) }
    {
        let busy = self.is_busy(i)?;
        let seat = &self.seats[i];
        let tickets = total(self.problem.generator_count(), seat.known);
        Ok(seat.may_claim(busy, tickets))
    }

    /// Claims the ticket that the seat has seen, or sees the ticket number.
    fn do_claim(&mut self, i: usize) -> Result<(), AllocError>
        requires sound { IsSound self.old }
        requires place { i < length self.old.seats }
        requires can { claim_test self.old (seat_at self.old i) ≡ true }
        ensures ok { OnOk result (self.new ≡ after_claim self.old i (seat_at self.old i)) }
        ensures err { OnErr result (self.new ≡ self.old) }
    {
        let _problem = self.problem.n();
        let reads = Reads::room(self.alloc, 0)?;
        let ticket = self.ticket;
        let seat = &mut self.seats[i];
        if ticket == seat.seen {
            seat.win(reads);
            self.ticket = ticket + 1;
        } else {
            seat.see(ticket);
        }
        Ok(())
    }

    /// Claim.
    fn claim(&mut self, i: usize) -> Result<bool, AllocError>
        requires sound { IsSound self.old }
        requires place { i < length self.old.seats }
        ensures { HasStepped self.old self.new result (next_claim self.old (found_at self.old i)) }
    {
        if !self.can_claim(i)? {
            return Ok(false);
        }
        self.do_claim(i)?;
        Ok(true)
    }

    /// Reads the corner.
    fn do_read(&mut self, i: usize, worker: &Workspace) -> Result<(), AllocError>
        requires sound { IsSound self.old }
        requires place { i < length self.old.seats }
        requires work { IsAtWork self.old.problem (known_by self.old (seat_at self.old i)) (seat_at self.old i).hand worker.now }
        ensures ok { OnOk result (self.new ≡ after_corner self.old i (seat_at self.old i)) }
        ensures err { OnErr result (self.new ≡ self.old) }
    {
        let corner = self.corner.min(worker.cover.corner());
        let seat = &mut self.seats[i];
        let known = seat.known;
        seat.read(more_reads(self.alloc, worker, Reading { known, corner })?);
        self.corner = corner;
        Ok(())
    }

    /// Corner.
    fn read(&mut self, i: usize) -> Result<bool, AllocError>
        requires sound { IsSound self.old }
        requires place { i < length self.old.seats }
        ensures { HasStepped self.old self.new result (next_corner self.old (found_at self.old i)) }
    {
        let Some(worker) = self.work(i)? else {
            return Ok(false);
        };
        self.do_read(i, &worker)?;
        Ok(true)
    }

    /// Whether the seat may rest.
    fn can_rest(&self, i: usize) -> Result<bool, AllocError>
        requires sound { IsSound self.now }
        requires place { i < length self.now.seats }
        ensures { IfOk result (λ b. b ≡ rest_test self.now (seat_at self.now i)) }
    {
        let busy = self.is_busy(i)?;
        let seat = &self.seats[i];
        let tickets = total(self.problem.generator_count(), seat.known);
        Ok(seat.may_rest(busy, self.entries.len(), tickets))
    }

    /// Look.
    fn look(&mut self, i: usize) -> Result<bool, AllocError>
        requires sound { IsSound self.old }
        requires place { i < length self.old.seats }
        ensures { HasStepped self.old self.new result (next_look self.old (found_at self.old i)) }
    {
        let _problem = self.problem.n();
        let known = self.seats[i].known as usize;
        if known < self.entries.len() {
            let seat = &mut self.seats[i];
            seat.learn();
            return Ok(true);
        }
        if !self.can_rest(i)? {
            return Ok(false);
        }
        let seat = &mut self.seats[i];
        seat.rest();
        Ok(true)
    }

    /// Whether the seat may publish the entry of its hand.
    fn can_publish(&self, i: usize, worker: &Workspace) -> bool
        requires sound { IsSound self.now }
        requires place { i < length self.now.seats }
        requires work { IsAtWork self.now.problem (known_by self.now (seat_at self.now i)) (seat_at self.now i).hand worker.now }
        ensures { result ≡ publish_test self.now (seat_at self.now i) }
    {
        let seat = &self.seats[i];
        is_publishable(worker, seat.known, self.entries.len())
    }

    /// Publishes it.
    fn do_publish(&mut self, i: usize, worker: &Workspace) -> Result<(), AllocError>
        requires sound { IsSound self.old }
        requires place { i < length self.old.seats }
        requires work { IsAtWork self.old.problem (known_by self.old (seat_at self.old i)) (seat_at self.old i).hand worker.now }
        requires can { publish_test self.old (seat_at self.old i) ≡ true }
        ensures ok { OnOk result (self.new ≡ after_publish self.old i (seat_at self.old i)) }
        ensures err { OnErr result (self.new ≡ self.old) }
    {
        let _problem = self.problem.n();
        let entry = copy_entry(self.alloc, worker.mora.draft())?;
        let steps = worker.mora.readings().len().saturating_sub(1) as u64;
        self.entries.push(entry)?;
        let seat = &mut self.seats[i];
        seat.publish(steps);
        Ok(())
    }

    /// Publish.
    fn publish(&mut self, i: usize) -> Result<bool, AllocError>
        requires sound { IsSound self.old }
        requires place { i < length self.old.seats }
        ensures { HasStepped self.old self.new result (next_publish self.old (found_at self.old i)) }
    {
        let Some(worker) = self.work(i)? else {
            return Ok(false);
        };
        if !self.can_publish(i, &worker) {
            return Ok(false);
        }
        self.do_publish(i, &worker)?;
        Ok(true)
    }

    /// Whether the seat may give its number `k` away.
    fn can_split(&self, i: usize, k: u32) -> Result<bool, AllocError>
        requires sound { IsSound self.now }
        requires place { i < length self.now.seats }
        ensures { IfOk result (λ b. b ≡ split_test k self.now (seat_at self.now i)) }
    {
        let busy = self.is_busy(i)?;
        let seat = &self.seats[i];
        Ok(seat.may_give(busy, k))
    }

    /// Gives it away to a new seat.
    fn do_split(&mut self, i: usize) -> Result<(), AllocError>
        requires place { i < length self.old.seats }
        ensures ok { OnOk result (self.new ≡ after_split self.old i (seat_at self.old i)) }
        ensures err { OnErr result (self.new ≡ self.old) }
    {
        let given = self.seats[i].given(self.alloc)?;
        self.seats.push(given)?;
        let seat = &mut self.seats[i];
        seat.give();
        Ok(())
    }

    /// Split.
    fn split(&mut self, i: usize, k: u32) -> Result<bool, AllocError>
        requires sound { IsSound self.old }
        requires place { i < length self.old.seats }
        ensures { HasStepped self.old self.new result (next_split k self.old (found_at self.old i)) }
    {
        if !self.can_split(i, k)? {
            return Ok(false);
        }
        self.do_split(i)?;
        Ok(true)
    }

    /// Whether the seats at two places may be joined.
    fn can_join(&self, i: usize, j: usize) -> Result<bool, AllocError>
        requires sound { IsSound self.now }
        requires place { i < length self.now.seats }
        requires other { j < length self.now.seats }
        ensures { IfOk result (λ b. b ≡ join_test self.now (found_at self.now i) (found_at self.now j)) }
    {
        let first = self.is_busy(i)?;
        let second = self.is_busy(j)?;
        Ok(!first && !second && i != j)
    }

    /// Joins them at the first one.
    fn do_join(&mut self, i: usize, j: usize) -> Result<(), AllocError>
        requires sound { IsSound self.old }
        requires place { i < length self.old.seats }
        requires other { j < length self.old.seats }
        requires apart { i ≢ j }
        ensures ok { OnOk result (self.new ≡ after_join self.old i (seat_at self.old i) j (seat_at self.old j)) }
        ensures err { OnErr result (self.new ≡ self.old) }
    {
        let _problem = self.problem.n();
        let joined = self.seats[i].joined(self.alloc, &self.seats[j])?;
        self.seats[i] = joined;
        self.seats[j] = CoreSeat::nobody(self.alloc);
        Ok(())
    }

    /// Join.
    fn join(&mut self, i: usize, k: u32) -> Result<bool, AllocError>
        requires sound { IsSound self.old }
        requires place { i < length self.old.seats }
        ensures { HasStepped self.old self.new result (next_join self.old (found_at self.old i) (find_seat k 0 self.old.seats)) }
    {
        let Some(j) = self.find(k) else {
            return Ok(false);
        };
        if !self.can_join(i, j)? {
            return Ok(false);
        }
        self.do_join(i, j)?;
        Ok(true)
    }

    /// An event of the seat at a place.
    fn step_at(&mut self, i: usize, event: Event) -> Result<bool, AllocError>
        requires sound { IsSound self.old }
        requires place { i < length self.old.seats }
        ensures { HasStepped self.old self.new result (next_at event self.old (found_at self.old i)) }
    {
        match event {
            Event::Claim => self.claim(i),
            Event::Corner => self.read(i),
            Event::Look => self.look(i),
            Event::Publish => self.publish(i),
            Event::Split(k) => self.split(i, k),
            Event::Join(k) => self.join(i, k),
        }
    }

    /// An event of the seat with a name.
    pub(crate) fn step(&mut self, name: u32, event: Event) -> Result<bool, AllocError>
        requires sound { IsSound self.old }
        ensures { HasStepped self.old self.new result (next name event self.old) }
    {
        match self.find(name) {
            Some(i) => self.step_at(i, event),
            None => Ok(false),
        }
    }
}
