//! What a staircase is picked from, and what is picked from it.

ghost use Rattle.std.specs.Prelude.{◌≡◌, ℕ, List, ◌+◌, ◌<◌, ◌≤◌, ◌↔◌, All, Contains, count_by, nat_lt, nat_le, ◌&&◌, IsTrue, IfOk, MatchOption};
ghost use Rattle.local_order.specs.Shape.{count};
ghost use Rattle.mono_rank.specs.Rank.{HasRank};
ghost use Rattle.mono_rank.specs.Cover.{IsMultipleOfRanks};
ghost use Rattle.staircase.specs.Stair.{IsRising, IsStairOf, HasFirsts};

use mono_rank::RankTable;
use std::alloc::{AllocError, Global};

/// Whether a lead divides the monomial of a rank.
pub(crate) fn is_multiple(table: &RankTable, leads: &[u32], rank: u32) -> bool
    requires some { 1 ≤ table.now.variables }
    requires leads { All (λ l. l < count table.now) leads.now }
    requires low { rank < count table.now }
    ensures { (m : List ℕ) → HasRank table.now m rank
        → IsTrue result ↔ IsMultipleOfRanks table.now leads.now m }
{
    for lead in leads {
        if table.divides_rank(*lead, rank) {
            return true;
        }
    }
    false
}

/// The ranks of the monomials that are multiples of no lead.
pub(crate) fn non_multiples(
    alloc: Global,
    table: &RankTable,
    leads: &[u32],
) -> Result<Vec<u32>, AllocError>
    requires { All (λ l. l < count table.now) leads.now }
    ensures { IfOk result (λ v. IsStairOf table.now leads.now v.items) }
{
    let mut ranks = Vec::new(alloc);
    for r in 0..table.count() {
        if !is_multiple(table, leads, r) {
            ranks.push(r)?;
        }
    }
    Ok(ranks)
}

/// The first rank of each degree up to `d`, the greatest of the table, and behind them the number of monomials.
pub(crate) fn first_ranks(alloc: Global, table: &RankTable, d: u32) -> Result<Vec<u32>, AllocError>
    requires { d ≡ table.now.degree }
    ensures { IfOk result (λ v. HasFirsts table.now v.items) }
{
    let mut firsts = Vec::new(alloc);
    for degree in 0..=d {
        firsts.push(table.first_of_degree(degree))?;
    }
    firsts.push(table.count())?;
    Ok(firsts)
}

/// How many of the ranks are from `low` to below `high`.
pub(crate) fn count_between(ranks: &[u32], low: u32, high: u32) -> usize
    ensures { result ≡ count_by (λ r. nat_le low r && nat_lt r high) ranks.now }
{
    ranks.iter().filter(|r| low <= **r && **r < high).count()
}

/// The first of the rising ranks that is `low` or more.
pub(crate) fn first_from(ranks: &[u32], low: u32) -> Option<u32>
    requires { IsRising ranks.now }
    ensures { MatchOption result ((r : ℕ) → Contains ranks.now r → r < low)
        (λ r. Contains ranks.now r × (low ≤ r) × ((q : ℕ) → Contains ranks.now q → low ≤ q → r ≤ q)) }
{
    for rank in ranks {
        if low <= *rank {
            return Some(*rank);
        }
    }
    None
}
