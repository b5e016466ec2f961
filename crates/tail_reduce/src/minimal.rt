//! The entries with a minimal lead.

ghost use Rattle.std.specs.Prelude.{◌≡◌, ℕ, ◌<◌, ◌^◌, length, All, IfOk};
ghost use Rattle.local_order.specs.Shape.{count};
ghost use Rattle.sparse_poly.specs.Shape.{shape_of};
ghost use Rattle.sparse_poly.specs.Ideal.{Problem as IdealProblem};
ghost use Rattle.entry_code.specs.Entry.{entry_at};
ghost use Rattle.rank_algebra.specs.Division.{Basis};
ghost use Rattle.mora_law.specs.Ring.{ranks_of_problem};
ghost use Rattle.mora_law.specs.Legal.{Legal};
ghost use Rattle.mora_law.specs.Basis.{is_minimal, minimal_with};
ghost use Rattle.tail_reduce.specs.Divisors.{leads_of, AreLeadsOf, minimal_places};

use entry_code::Entries;
use mono_rank::RankTable;
use sparse_poly::Problem;
use std::alloc::{AllocError, Global};

/// The ranks of the leads of the entries.
pub(crate) fn leads(alloc: Global, entries: &Entries) -> Result<Vec<u32>, AllocError>
    requires { (k : ℕ) → k < length entries.now → 0 < length (entry_at entries.now k).terms }
    ensures { IfOk result (λ v. v.items ≡ leads_of entries.now) }
{
    let mut leads = Vec::with_capacity(alloc, entries.len())?;
    for place in 0..entries.len() {
        leads.push(entries.get(place).terms.get(0).rank)?;
    }
    Ok(leads)
}

/// The ranks of the leads of legal entries.
pub fn lead_ranks(
    alloc: Global,
    problem: &Problem,
    entries: &Entries,
) -> Result<Vec<u32>, AllocError>
    requires { Legal problem.now entries.now }
    ensures value { IfOk result (λ v. v.items ≡ leads_of entries.now) }
    ensures small { IfOk result (λ v. All (λ l. l < count (shape_of problem.now)) v.items) }
{
    // A problem is within its limits, which its field is lent with.
    let _field = problem.field();
    let leads = leads(alloc, entries)?;
    Ok(leads)
}

/// Whether no other lead divides the one at a place.
fn is_minimal(table: &RankTable, leads: &[u32], place: usize) -> bool
    requires leads { All (λ l. l < count table.now) leads.now }
    requires place { place < length leads.now }
    ensures { (P : IdealProblem) (B : Basis) → AreLeadsOf P B table.now leads.now
        → result ≡ is_minimal (ranks_of_problem P) B place }
{
    for other in 0..leads.len() {
        if other != place && table.quotient_rank(leads[place], leads[other]).is_some() {
            return false;
        }
    }
    true
}

/// The first place with a lead of this rank that no other lead divides.
fn minimal_with(table: &RankTable, leads: &[u32], rank: u32) -> Option<u32>
    requires leads { All (λ l. l < count table.now) leads.now }
    requires few { length leads.now < 2 ^ 32 }
    ensures { (P : IdealProblem) (B : Basis) → AreLeadsOf P B table.now leads.now
        → result ≡ minimal_with (ranks_of_problem P) B rank }
{
    for place in 0..leads.len() {
        if leads[place] == rank && is_minimal(table, leads, place) {
            return Some(place as u32);
        }
    }
    None
}

/// The places of the entries with a minimal lead, the greatest lead first.
pub(crate) fn places(
    alloc: Global,
    table: &RankTable,
    leads: &[u32],
) -> Result<Vec<u32>, AllocError>
    requires leads { All (λ l. l < count table.now) leads.now }
    requires few { length leads.now < 2 ^ 32 }
    ensures { IfOk result (λ v. (P : IdealProblem) (B : Basis) → AreLeadsOf P B table.now leads.now
        → v.items ≡ minimal_places (ranks_of_problem P) B (count table.now)) }
{
    let mut places = Vec::new(alloc);
    for rank in 0..table.count() {
        if let Some(place) = minimal_with(table, leads, rank) {
            places.push(place)?;
        }
    }
    Ok(places)
}
