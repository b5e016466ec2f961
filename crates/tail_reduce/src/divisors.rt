//! The first entry whose lead divides a monomial, and the corner.

ghost use Rattle.std.specs.Prelude.{◌≡◌, ◌<◌, ◌^◌, length, All, IfOk, option_map};
ghost use Rattle.local_order.specs.Shape.{count};
ghost use Rattle.rank_algebra.specs.Ranks.{Ranks, IsRanks};
ghost use Rattle.sparse_poly.specs.Ideal.{Problem as IdealProblem};
ghost use Rattle.rank_algebra.specs.Division.{Basis, first_lead, corner_of};
ghost use Rattle.mora_law.specs.Ring.{ranks_of_problem};
ghost use Rattle.tail_reduce.specs.Divisors.{AreLeadsOf, AreFirsts, hit_of};

use mono_rank::RankTable;
use std::alloc::{AllocError, Global};

/// An entry whose lead divides a monomial, by its place, and the rank of the quotient.
#[derive(Clone, Copy)]
pub(crate) struct Divisor {
    pub(crate) place: u32,
    pub(crate) cofactor: u32,
}

/// The first lead that divides the monomial of a rank, by its place, with the rank of the quotient.
fn first_divisor(table: &RankTable, leads: &[u32], rank: u32) -> Option<Divisor>
    requires leads { All (λ l. l < count table.now) leads.now }
    requires few { length leads.now < 2 ^ 32 }
    requires low { rank < count table.now }
    ensures { (P : IdealProblem) (B : Basis) → AreLeadsOf P B table.now leads.now
        → option_map hit_of result ≡ first_lead (ranks_of_problem P) B rank }
{
    for place in 0..leads.len() {
        if let Some(cofactor) = table.quotient_rank(rank, leads[place]) {
            return Some(Divisor {
                place: place as u32,
                cofactor,
            });
        }
    }
    None
}

/// For each rank the first lead that divides. It costs a division for each rank and each lead up to the one that divides.
pub(crate) fn first_divisors(
    alloc: Global,
    table: &RankTable,
    leads: &[u32],
) -> Result<Vec<Option<Divisor>>, AllocError>
    requires leads { All (λ l. l < count table.now) leads.now }
    requires few { length leads.now < 2 ^ 32 }
    ensures { IfOk result (λ v. (P : IdealProblem) (B : Basis) → AreLeadsOf P B table.now leads.now
        → AreFirsts (ranks_of_problem P) B (count table.now) v.items) }
{
    let mut firsts = Vec::with_capacity(alloc, table.count() as usize)?;
    for rank in 0..table.count() {
        firsts.push(first_divisor(table, leads, rank))?;
    }
    Ok(firsts)
}

/// The corner: the least rank from which on each has a divisor.
pub(crate) fn corner_from(firsts: &[Option<Divisor>], count: u32) -> u32
    requires { count ≡ length firsts.now }
    ensures { (R : Ranks) (B : Basis) → IsRanks R → R.n ≡ count → AreFirsts R B count firsts.now → result ≡ corner_of R B }
{
    let mut corner = count;
    while corner > 0 && firsts[(corner - 1) as usize].is_some() {
        corner -= 1;
    }
    corner
}
