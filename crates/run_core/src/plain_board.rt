//! The board of one worker.

ghost use Rattle.std.specs.Prelude.{◌≡◌, ◌<◌, ◌≤◌, ◌^◌, true, false, Some, length, IfOk, IfSome, OnOk, OnErr};
ghost use Rattle.local_order.specs.Limits.{max_monomials};
ghost use Rattle.entry_code.specs.Entry.{entry_of};
ghost use Rattle.mora_law.specs.declared.step_end.StepEnd.TheVariants.{Stuck};
ghost use Rattle.mora_law.specs.Run.{last_known};
ghost use Rattle.mora_law.specs.Entries.{corner as corner_of};
ghost use Rattle.mora_law.specs.Tickets.{total as ticket_total};
ghost use Rattle.run_core.specs.Hand.{reads_of};
ghost use Rattle.run_core.specs.Plain.{plain_opening, is_working, plain_end, plain_draft, plain_claimed, plain_corner, plain_cornered, plain_published};

use crate::ghost_hand::GhostHand;
use entry_code::{Entries, Entry, Reads, Terms};
use local_order::monomial_count;
use sparse_poly::Problem;
use std::alloc::{AllocError, Global};
use std::marker::Model;
use std::snapshot::Snapshot;

/// The entries, the corner and the ticket number, with one worker. A contract sees the problem and the hand too: the ticket that was
/// claimed last with the readings taken for it, and whether its entry was published.
#[derive(Drop)]
pub struct PlainBoard {
    problem: Snapshot<Problem>,
    generators: u32,
    entries: Entries,
    corner: u32,
    ticket: u64,
    hand: GhostHand,
    alloc: Global,
}

impl Model for PlainBoard {
    ghost use Rattle.std.specs.Prelude.{◌≡◌, length};
    ghost use Rattle.run_core.specs.Plain.{Plain};

    ghost Value = { Plain };

    ghost view = { λ b. record { problem = b.problem.value; entries = b.entries; corner = b.corner; ticket = b.ticket; hand = b.hand.value } };

    ghost invariant = { λ b. b.generators ≡ length b.problem.value.gens };
}

/// How many tickets so many generators and entries have.
fn total(generators: u32, entries: usize) -> u64
    requires { entries ≤ max_monomials }
    ensures { result ≡ ticket_total generators entries }
{
    let n = entries as u64;
    u64::from(generators) + n * n.saturating_sub(1) / 2
}

/// A copy of the readings.
fn copy_reads(alloc: Global, from: &Reads) -> Result<Reads, AllocError>
    ensures { IfOk result (λ l. l.list ≡ from.now.list) }
{
    let mut reads = Reads::room(alloc, from.len())?;
    for i in 0..from.len() {
        reads.push(from.get(i))?;
    }
    Ok(reads)
}

/// A copy of the terms.
fn copy_terms(alloc: Global, from: &Terms) -> Result<Terms, AllocError>
    ensures { IfOk result (λ l. l.list ≡ from.now.list) }
{
    let mut terms = Terms::room(alloc, from.len())?;
    for i in 0..from.len() {
        terms.push(from.get(i))?;
    }
    Ok(terms)
}

/// A copy of the entry.
pub fn copy_entry(alloc: Global, entry: &Entry) -> Result<Entry, AllocError>
    ensures { IfOk result (λ e. entry_of e ≡ entry_of entry.now) }
{
    let reads = copy_reads(alloc, &entry.reads)?;
    let terms = copy_terms(alloc, &entry.terms)?;
    Ok(Entry {
        item: entry.item,
        reads,
        terms,
    })
}

impl PlainBoard {
    /// No entries, no corner, no ticket claimed, and no hand.
    pub fn open(alloc: Global, problem: &Problem) -> PlainBoard
        requires { length problem.now.gens < 2 ^ 32 }
        ensures { result ≡ plain_opening problem.now }
    {
        PlainBoard {
            problem: Snapshot::of(problem),
            generators: problem.gens().len() as u32,
            entries: Entries::new(alloc),
            corner: monomial_count(problem.n(), problem.d()) as u32,
            ticket: 0,
            hand: GhostHand::of(problem),
            alloc,
        }
    }

    /// Claims the next ticket, where there is one. The hand is that ticket without readings.
    pub fn claim(&mut self) -> Option<u64>
        requires idle { is_working self.old ≡ false }
        requires few { length self.old.entries ≤ max_monomials }
        ensures none { result ≡ None → (ticket_total (length self.old.problem.gens) (length self.old.entries) ≤ self.old.ticket) × (self.new ≡ self.old) }
        ensures some { IfSome result (λ k. (k ≡ self.old.ticket) × (k < ticket_total (length self.old.problem.gens) (length self.old.entries))
            × (self.new ≡ plain_claimed self.old)) }
    {
        let ticket = self.ticket;
        if ticket < total(self.generators, self.entries.len()) {
            self.hand = GhostHand::of(self);
            self.ticket = ticket + 1;
            Some(ticket)
        } else {
            None
        }
    }

    /// The lesser of the corner and `own`, which is that of the entries. The corner becomes it, and the hand has one more reading, in
    /// place of its last one where that gave Stuck.
    pub fn corner(&mut self, own: u32) -> u32
        requires working { is_working self.old ≡ true }
        requires own { own ≡ corner_of self.old.problem self.old.entries }
        ensures value { result ≡ plain_corner self.old }
        ensures board { self.new ≡ plain_cornered self.old }
    {
        if own < self.corner {
            self.corner = own;
        }
        self.hand = GhostHand::of(self);
        self.corner
    }

    /// Puts a copy of the entry of the hand at the end, and answers its number. The hand has its mark.
    pub fn publish(&mut self, draft: &Entry) -> Result<u32, AllocError>
        requires working { is_working self.old ≡ true }
        requires stuck { plain_end self.old ≡ Some Stuck }
        requires known { last_known 0 (reads_of self.old.hand) ≡ length self.old.entries }
        requires draft { entry_of draft.now ≡ plain_draft self.old }
        requires few { length self.old.entries < max_monomials }
        ensures ok { OnOk result (self.new ≡ plain_published self.old) }
        ensures number { IfOk result (λ k. k ≡ length self.old.entries) }
        ensures err { OnErr result (self.new ≡ self.old) }
    {
        let entry = copy_entry(self.alloc, draft)?;
        let number = self.entries.len() as u32;
        self.entries.push(entry)?;
        self.hand = GhostHand::of(self);
        Ok(number)
    }

    /// The entries.
    pub fn entries(&self) -> &Entries
        ensures { result.now ≡ self.now.entries }
    {
        &self.entries
    }

    /// The entries alone.
    pub fn into_entries(self) -> Entries
        ensures { result ≡ self.entries }
    {
        self.entries
    }
}
