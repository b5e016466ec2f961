//! A machine that is watched: after each event what is seen of it is compared with what was seen before.

use crate::trial::{Trial, table_of};
use entry_code::{Entry, Item};
use mono_rank::RankTable;
use pair_queue::ticket_of;
use run_core::Event;
use sparse_poly::{Polys, Problem};
use std::alloc::{AllocError, Global};
use std::test::Fail;
use std::thread::Threads;

/// A machine with the corner and the ticket number that were seen last, the leads of the entries by rank, and for each name the ticket
/// that its seat claimed last.
#[derive(Drop)]
pub struct Watched {
    trial: Trial,
    table: RankTable,
    corner: u32,
    ticket: u64,
    leads: Vec<u32>,
    claimed: Vec<Option<u64>>,
}

impl Watched {
    /// The opening state.
    pub fn open(alloc: Global, problem: &Problem, workers: u32) -> Result<Watched, Fail> {
        let table = table_of(alloc, problem)?;
        let mut claimed = Vec::new(alloc);
        for _ in 0..workers {
            claimed.push(None)?;
        }
        Ok(Watched {
            trial: Trial::open(alloc, problem, workers)?,
            corner: table.count(),
            table,
            ticket: 0,
            leads: Vec::new(alloc),
            claimed,
        })
    }

    /// How many entries and tickets there are.
    pub fn progress(&self) -> (usize, u64) {
        (self.leads.len(), self.ticket)
    }

    /// An event of the seat with a name.
    pub fn apply(&mut self, seat: u32, event: Event) -> Result<bool, Fail> {
        let made = self.trial.apply(seat, event)?;
        self.see_corner()?;
        self.see_ticket(seat, event)?;
        self.see_entries(seat, event)?;
        Ok(made)
    }

    /// The corner never rises.
    fn see_corner(&mut self) -> Result<(), Fail> {
        let corner = self.trial.core().corner();
        if corner > self.corner {
            return Err("the corner rose")?;
        }
        self.corner = corner;
        Ok(())
    }

    /// The ticket number goes up by one, at the event Claim, and no seat has claimed that ticket before.
    fn see_ticket(&mut self, seat: u32, event: Event) -> Result<(), Fail> {
        let ticket = self.trial.core().ticket();
        if ticket == self.ticket {
            return Ok(());
        }
        if event != Event::Claim || ticket < 1 || ticket - 1 != self.ticket {
            return Err("tickets are claimed one by one")?;
        }
        if self.claimed.iter().any(|own| *own == Some(self.ticket)) {
            return Err("two seats have one ticket")?;
        }
        let place = seat as usize;
        if place >= self.claimed.len() {
            return Err("a seat with an unknown name")?;
        }
        self.claimed[place] = Some(self.ticket);
        self.ticket = ticket;
        Ok(())
    }

    /// Entries come one by one, at the event Publish: that of the ticket that the seat has claimed, with a lead that no lead before
    /// divides.
    fn see_entries(&mut self, seat: u32, event: Event) -> Result<(), Fail> {
        let before = self.leads.len();
        let count = self.trial.core().entries().len();
        if count == before {
            return Ok(());
        }
        if event != Event::Publish || count < 1 || count - 1 != before {
            return Err("entries are published one by one")?;
        }
        let lead = self.see_entry(seat, before)?;
        self.leads.push(lead)?;
        Ok(())
    }

    /// The rank of the lead of the entry at a place, which has to be of the ticket that the seat has claimed.
    fn see_entry(&self, seat: u32, number: usize) -> Result<u32, Fail> {
        let entries = self.trial.core().entries();
        if number >= entries.len() {
            return Err("no such entry")?;
        }
        let entry = entries.get(number);
        let ticket = ticket_in(self.trial.problem().generator_count(), entry.item);
        let place = seat as usize;
        if place >= self.claimed.len() || ticket.is_none() || self.claimed[place] != ticket {
            return Err("an entry of another ticket")?;
        }
        self.new_lead(entry)
    }

    /// The rank of an entry's lead, which none before divides.
    fn new_lead(&self, entry: &Entry) -> Result<u32, Fail> {
        if entry.terms.len() == 0 {
            return Err("an entry without terms")?;
        }
        let lead = entry.terms.get(0).rank;
        let count = self.table.count();
        if lead >= count {
            return Err("a lead without a monomial")?;
        }
        for old in &self.leads {
            if *old >= count || self.table.divides_rank(*old, lead) {
                return Err("a lead that another one divides")?;
            }
        }
        Ok(lead)
    }

    /// The reduced basis by the entries, which have to settle every ticket.
    pub fn basis<R: Threads + Sync>(&mut self, rt: &R, alloc: Global) -> Result<Polys, Fail> {
        self.trial.basis(rt, alloc)
    }
}

/// The ticket of an item, of so many generators.
fn ticket_in(m: u32, item: Item) -> Option<u64> {
    let is_item = match item {
        Item::Generator(g) => g < m,
        Item::Pair(i, j) => i < j,
    };
    if is_item {
        Some(ticket_of(m, item))
    } else {
        None
    }
}
