//! Runs that tests make: what a call has as its condition is tested before the call.

ghost use Rattle.std.specs.Prelude.{◌≤◌, ◌<◌, All, IsTrue, length};
ghost use Rattle.mora_law.specs.Legal.{IsItemOf};

use crate::problems::{Written, problem};
use entry_code::{Entry, Item, Reading, Reads, Term};
use mono_rank::RankTable;
use mora_form::Mora;
use mora_law::StepEnd;
use sparse_poly::Problem;
use std::alloc::Global;
use std::marker::Model;
use std::test::Fail;

/// A problem and runs over it. A contract sees the runs.
#[derive(Drop)]
pub struct Trial {
    table: RankTable,
    problem: Problem,
    mora: Mora,
}

impl Model for Trial {
    ghost use Rattle.std.specs.Prelude.{◌≡◌};
    ghost use Rattle.mora_form.specs.State.{State, IsOver};

    ghost Value = { State };

    ghost view = { λ t. t.mora };

    ghost invariant = { λ t. (t.table ≡ t.mora.shape) × IsOver t.problem t.mora };
}

impl Trial {
    /// Nothing is known yet of the problem of these generators.
    pub fn of(alloc: Global, n: u32, d: u32, gens: &[Written]) -> Result<Trial, Fail> {
        if n < 1 || n > 8 || d < 1 || d > 255 {
            return Err("beyond the limits")?;
        }
        let table = RankTable::new(alloc, n, d)?;
        let problem = problem(alloc, &table, n, d, gens)?;
        let mora = Mora::open(alloc, &table, *problem.field())?;
        Ok(Trial {
            table,
            problem,
            mora,
        })
    }

    /// Whether the entry with these ranks and coefficients may be learnt.
    pub fn accepts(&self, alloc: Global, terms: &[(u32, u32)]) -> Result<bool, Fail> {
        Ok(self.mora.accepts(&entry(alloc, self.table.count(), terms)?))
    }

    /// Learns the entry with these ranks and coefficients.
    pub fn learn(&mut self, alloc: Global, terms: &[(u32, u32)]) -> Result<(), Fail> {
        let entry = entry(alloc, self.table.count(), terms)?;
        if self.mora.known() >= self.table.count() as usize {
            return Err("too many entries")?;
        }
        if !self.mora.accepts(&entry) {
            return Err("not monic")?;
        }
        self.mora.learn(&self.table, &entry);
        Ok(())
    }

    /// Begins the run of an item.
    pub fn start(&mut self, item: Item) -> Result<(), Fail> {
        if !is_item(item, self.problem.gens().len(), self.mora.known()) {
            return Err("no item")?;
        }
        self.mora.start(&self.table, &self.problem, item);
        Ok(())
    }

    /// One step.
    pub fn step(&mut self, known: u32, corner: u32) -> Result<StepEnd, Fail> {
        if !self.mora.is_open() || known as usize != self.mora.known() {
            return Err("no such step")?;
        }
        if !may_follow(self.mora.readings(), corner) {
            return Err("a corner that rises")?;
        }
        Ok(self.mora.step(&self.table, Reading { known, corner }))
    }

    /// The entry that the run gives.
    pub fn draft(&self) -> Result<&Entry, Fail> {
        match self.mora.end() {
            Some(StepEnd::Stuck) => Ok(self.mora.draft()),
            _ => Err("no draft")?,
        }
    }

    /// The run.
    pub fn mora(&self) -> &Mora {
        &self.mora
    }
}

/// The entry with these ranks and coefficients.
fn entry(alloc: Global, n_ranks: u32, terms: &[(u32, u32)]) -> Result<Entry, Fail> {
    let mut entry = Entry::room(alloc, n_ranks)?;
    for (rank, coef) in terms {
        entry.terms.push(Term {
            rank: *rank,
            coef: *coef,
        })?;
    }
    Ok(entry)
}

/// Whether there is such an item of so many generators and entries.
fn is_item(item: Item, gens: usize, known: usize) -> bool
    ensures { IsTrue result → IsItemOf gens known item }
{
    match item {
        Item::Generator(g) => (g as usize) < gens,
        Item::Pair(i, j) => i < j && (j as usize) < known,
    }
}

/// Whether a reading with this corner may follow.
fn may_follow(reads: &Reads, corner: u32) -> bool
    ensures { IsTrue result → All (λ d. corner ≤ d.corner) reads.now.list }
{
    for i in 0..reads.len() {
        if reads.get(i).corner < corner {
            return false;
        }
    }
    true
}
