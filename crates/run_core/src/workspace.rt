//! What a worker has of its own.

ghost use Rattle.std.specs.Prelude.{◌≡◌, ◌≢◌, ◌<◌, ◌≤◌, List, [], ◌∷◌, ◌++◌, length, false, IsTrue, IfOk, vec_capacity};
ghost use Rattle.entry_code.specs.Entry.{Entry as EntryRecord, entry_of};
ghost use Rattle.mora_form.specs.State.{HasRun};
ghost use Rattle.mora_law.specs.declared.step_end.StepEnd.TheVariants.{Reduced, Stuck};
ghost use Rattle.mora_law.specs.Legal.{Legal, IsItemOf};
ghost use Rattle.run_core.specs.Hand.{is_skipped};
ghost use Rattle.run_core.specs.Work.{Holds};

use corner_word::Cover;
use entry_code::{Entry, Item};
use local_order::Mono;
use mono_rank::{RankError, RankTable};
use mora_form::Mora;
use mora_law::StepEnd;
use pair_queue::skip;
use sparse_poly::Problem;
use std::alloc::{AllocError, Global};

/// The ranks of the monomials, the run with the entries that it knows, the leads of these entries and what they cover, and how many
/// steps have reduced. All its memory is taken when it is opened.
#[derive(Drop)]
pub struct Workspace {
    pub table: RankTable,
    pub mora: Mora,
    pub cover: Cover,
    pub leads: Vec<Mono>,
    pub reductions: u64,
}

/// Puts a lead at the end, where there is a place for it.
fn put_lead(leads: &mut Vec<Mono>, lead: Mono)
    requires free { length leads.old.items < vec_capacity leads.old }
    ensures items { leads.new.items ≡ leads.old.items ++ lead ∷ [] }
    ensures places { vec_capacity leads.old ≤ vec_capacity leads.new }
{
    leads.push(lead).unwrap();
}

impl Workspace {
    /// A worker that knows no entries.
    pub fn open(alloc: Global, problem: &Problem) -> Result<Workspace, AllocError>
        ensures holds { IfOk result (Holds problem.now []) }
        ensures none { IfOk result (λ w. w.reductions ≡ 0) }
    {
        // A problem is within its limits, which its field is lent with.
        let _field = problem.field();
        let table = match RankTable::new(alloc, problem.n(), problem.d()) {
            Ok(table) => table,
            Err(RankError::Memory) => return Err(AllocError),
            Err(RankError::TooManyMonomials(_)) => unreachable!(),
        };
        let mora = Mora::open(alloc, &table, *problem.field())?;
        let cover = Cover::new(alloc, &table)?;
        let leads = Vec::with_capacity(alloc, table.count() as usize)?;
        Ok(Workspace {
            table,
            mora,
            cover,
            leads,
            reductions: 0,
        })
    }

    /// Learns the next entry of a legal list. It takes no memory.
    pub fn learn(&mut self, problem: &Problem, entry: &Entry)
        requires next { (known : List EntryRecord) × Holds problem.now known self.old × Legal problem.now (known ++ entry_of entry.now ∷ []) }
        ensures holds { (known : List EntryRecord) → Holds problem.now known self.old → Holds problem.now (known ++ entry_of entry.now ∷ []) self.new }
        ensures run { (known : List EntryRecord) → HasRun problem.now known self.old.mora → HasRun problem.now (known ++ entry_of entry.now ∷ []) self.new.mora }
        ensures mora { self.new.mora ≡ record self.old.mora { known = self.new.mora.known } }
        ensures count { self.new.reductions ≡ self.old.reductions }
    {
        let _problem = problem.n();
        let lead = entry.terms.get(0).rank;
        put_lead(&mut self.leads, self.table.mono(lead));
        self.mora.learn(&self.table, entry);
        self.cover.add(&self.table, lead);
    }

    /// Whether the pair of an item of the entries that are known is skipped.
    pub fn skips(&self, problem: &Problem, item: Item) -> bool
        requires known { (known : List EntryRecord) × Holds problem.now known self.now × Legal problem.now known × IsItemOf (length problem.now.gens) (length known) item }
        ensures { (known : List EntryRecord) → Holds problem.now known self.now → result ≡ is_skipped problem.now known item }
    {
        let _problem = problem.n();
        match item {
            Item::Generator(_) => false,
            Item::Pair(i, j) => skip(&self.leads, i, j).is_some(),
        }
    }
}

/// Whether a step reduced.
pub fn has_reduced(end: StepEnd) -> bool
    ensures yes { IsTrue result → end ≡ Reduced }
    ensures no { result ≡ false → end ≢ Reduced }
{
    matches!(end, StepEnd::Reduced)
}

/// Whether a step was stuck.
pub fn is_stuck(end: StepEnd) -> bool
    ensures yes { IsTrue result → end ≡ Stuck }
    ensures no { result ≡ false → end ≢ Stuck }
{
    matches!(end, StepEnd::Stuck)
}
