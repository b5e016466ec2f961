//! Runs of Mora's normal form.

ghost use Rattle.std.specs.Prelude.{◌≡◌, ◌↔◌, ℕ, List, [], ◌∷◌, ◌++◌, ◌<◌, ◌≤◌, length, replicate, All, IsTrue, IfOk, Some, None, true, false};
ghost use Rattle.local_order.specs.Shape.{count};
ghost use Rattle.sparse_poly.specs.Ideal.{Problem as IdealProblem};
ghost use Rattle.entry_code.specs.Entry.{Entry as EntryRecord, entry_of};
ghost use Rattle.entry_code.specs.declared.item.Item.TheVariants.{Generator};
ghost use Rattle.rank_algebra.specs.Rows.{IsRow, vector_of_row};
ghost use Rattle.trunc_row.specs.Rows.{IsRowOfTerms};
ghost use Rattle.rank_algebra.specs.Vector.{Agree};
ghost use Rattle.mora_law.specs.declared.step_end.StepEnd.TheVariants.{Zero, Reduced, Stuck};
ghost use Rattle.mora_law.specs.Alike.{RunAlike};
ghost use Rattle.mora_law.specs.Step.{step};
ghost use Rattle.mora_law.specs.Start.{start};
ghost use Rattle.mora_law.specs.Legal.{IsItemOf};
ghost use Rattle.mora_form.specs.State.{ring_of, entry_vector, run_in, Knows, IsOver, HasRun, recorded, AreMonicTerms, draft_in, draft_of};

use crate::begin::begin;
use crate::draft::draft_when_stuck;
use crate::entries::are_monic;
use crate::reducers::{Reducers, no_reducers, put, summary_of};
use crate::steps::{advance, goes_on, record};
use entry_code::{Entry, Item, Reading, Reads};
use mono_rank::RankTable;
use mora_law::StepEnd;
use prime_field::Field;
use sparse_poly::Problem;
use std::alloc::{AllocError, Global};
use std::marker::Model;
use trunc_row::Row;

/// A run of Mora's normal form over the entries that are known. [`Mora::open`] takes memory for as many known rows and as
/// many intermediates as there are monomials, and doesn't touch it; no other call takes memory.
/// A contract sees the field, the monomials, the rows of the known entries, and the run.
#[derive(Drop)]
pub struct Mora {
    n: u32,
    d: u32,
    field: Field,
    known: Reducers,
    kept: Reducers,
    row: Row,
    scratch: Row,
    is_open: bool,
    item: Item,
    reads: Reads,
    end: Option<StepEnd>,
    draft: Entry,
}

impl Model for Mora {
    ghost use Rattle.mora_form.specs.State.{State};

    ghost Value = { State };

    ghost use Rattle.mora_form.specs.Inside.{state_of, IsSound};

    ghost view = { state_of };

    ghost invariant = { IsSound };
}

impl Mora {
    /// No entries are known, and no run is open. It takes the memory for all later calls.
    pub fn open(alloc: Global, table: &RankTable, field: Field) -> Result<Mora, AllocError>
        ensures { IfOk result (λ m. m ≡ record {
          p = field;
          shape = table.now;
          known = [];
          is_open = false;
          item = Generator 0;
          reads = [];
          end = None;
          poly = replicate (count table.now) 0;
          kept = [];
        }) }
    {
        let count = table.count();
        let _prime = field.prime();
        Ok(Mora {
            n: table.n(),
            d: table.d(),
            field,
            known: no_reducers(alloc, count)?,
            kept: no_reducers(alloc, count)?,
            row: Row::zero(alloc, count)?,
            scratch: Row::zero(alloc, count)?,
            is_open: false,
            item: Item::Generator(0),
            reads: Reads::room(alloc, count as usize + 1)?,
            end: None,
            draft: Entry::room(alloc, count)?,
        })
    }

    /// How many entries are known.
    pub fn known(&self) -> usize
        ensures { result ≡ length self.now.known }
    {
        self.known.rows.len()
    }

    /// Whether the terms of an entry are those of a monic polynomial over the field of [`Mora::open`], so that it may be learnt.
    pub fn accepts(&self, entry: &Entry) -> bool
        ensures { IsTrue result ↔ AreMonicTerms self.now.p (count self.now.shape) entry.now.terms.list }
    {
        are_monic(&entry.terms, self.field.prime(), self.row.len())
    }

    /// Adds the next known entry. [`Mora::accepts`] tells whether it may be learnt.
    pub fn learn(&mut self, table: &RankTable, entry: &Entry)
        requires table { table.now ≡ self.old.shape }
        requires few { length self.old.known < count table.now }
        requires entry { AreMonicTerms self.old.p (count table.now) entry.now.terms.list }
        ensures value { (r : List ℕ) × IsRowOfTerms (count table.now) entry.now.terms.list r
            × (self.new ≡ record self.old { known = self.old.known ++ r ∷ [] }) }
        ensures knows { (entries : List EntryRecord) → Knows entries self.old → Knows (entries ++ entry_of entry.now ∷ []) self.new }
        ensures run { (P : IdealProblem) (entries : List EntryRecord) → HasRun P entries self.old
            → HasRun P (entries ++ entry_of entry.now ∷ []) self.new }
    {
        self.scratch.set_terms(&entry.terms);
        let lead = entry.terms.get(0).rank;
        let summary = summary_of(table, &self.scratch, lead);
        put(&mut self.known, &self.scratch, summary);
    }

    /// Begins a run.
    pub fn start(&mut self, table: &RankTable, problem: &Problem, item: Item)
        requires table { table.now ≡ self.old.shape }
        requires problem { IsOver problem.now self.old }
        requires item { IsItemOf (length problem.now.gens) (length self.old.known) item }
        ensures value { self.new ≡ record self.old { is_open = true; item = item; reads = []; end = None; poly = self.new.poly; kept = [] } }
        ensures poly { (entries : List EntryRecord) → Knows entries self.old
            → Agree (ring_of self.old) (ring_of self.old).n (vector_of_row self.new.poly) (start problem.now entries item) }
        ensures run { (entries : List EntryRecord) → Knows entries self.old → HasRun problem.now entries self.new }
    {
        begin(&mut self.row, table, problem, &self.known, item);
        self.kept.rows.clear();
        self.kept.summaries.clear();
        self.reads.clear();
        self.is_open = true;
        self.item = item;
        self.end = None;
    }

    /// One step of Mora's normal form. A step that is stuck makes the draft.
    pub fn step(&mut self, table: &RankTable, reading: Reading) -> StepEnd
        requires table { table.now ≡ self.old.shape }
        requires open { IsTrue self.old.is_open }
        requires known { reading.known ≡ length self.old.known }
        requires corners { All (λ d. reading.corner ≤ d.corner) self.old.reads }
        ensures end { self.new.end ≡ Some result }
        ensures step { RunAlike (ring_of self.old) (run_in self.new) (step (ring_of self.old) (entry_vector self.old.known) (run_in self.old) reading) }
        ensures value { self.new ≡ record self.old {
          is_open = self.new.is_open;
          reads = recorded self.old.end self.old.reads ++ reading ∷ [];
          end = self.new.end;
          poly = self.new.poly;
          kept = self.new.kept;
        } }
        ensures closed { result ≡ Zero → self.new.is_open ≡ false }
        ensures still_open { (result ≡ Zero → ⊥) → self.new.is_open ≡ true }
        ensures run { (P : IdealProblem) (entries : List EntryRecord) → Knows entries self.old → HasRun P entries self.old → HasRun P entries self.new }
    {
        record(&mut self.reads, self.end, reading);
        self.row.cut_at(reading.corner);
        let end = advance(
            table,
            &self.field,
            &self.known,
            &mut self.kept,
            &mut self.row,
            &mut self.scratch,
        );
        draft_when_stuck(
            &mut self.draft,
            end,
            table,
            &self.field,
            self.item,
            &self.reads,
            &self.row,
        );
        self.end = Some(end);
        self.is_open = goes_on(end);
        end
    }

    /// Whether a run is open: one has begun, and no step of it has ended with Zero.
    pub fn is_open(&self) -> bool
        ensures { result ≡ self.now.is_open }
    {
        self.is_open
    }

    /// How the last step of the run ended, where there was one.
    pub fn end(&self) -> Option<StepEnd>
        ensures { result ≡ self.now.end }
    {
        self.end
    }

    /// The record of the run: its readings, without those that ended with Stuck and were followed by another.
    pub fn readings(&self) -> &Reads
        ensures { result.now.list ≡ self.now.reads }
    {
        &self.reads
    }

    /// The entry that the run gives, where its last step was stuck.
    pub fn draft(&self) -> &Entry
        requires { self.now.end ≡ Some Stuck }
        ensures value { entry_of result.now ≡ draft_in self.now }
        ensures run { (P : IdealProblem) (entries : List EntryRecord) → HasRun P entries self.now
            → entry_of result.now ≡ draft_of P entries self.now.item self.now.reads }
    {
        &self.draft
    }
}
