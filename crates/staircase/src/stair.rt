//! The staircase of leads: the monomials that are multiples of none of them.

ghost use Rattle.std.specs.Prelude.{◌≡◌, ℕ, ◌-◌, ◌<◌, All, Contains, length, count_by, slice_get, IfOk, MatchOption};
ghost use Rattle.local_order.specs.Mono.{degree};
ghost use Rattle.local_order.specs.Shape.{count};
ghost use Rattle.mono_rank.specs.Rank.{mono_of_rank};
ghost use Rattle.staircase.specs.Stair.{IsStairOf, is_of_degree, IsLeastOfDegree};

use crate::pick::{count_between, first_from, first_ranks, non_multiples};
use crate::ranks::Ranks;
use mono_rank::RankTable;
use std::alloc::{AllocError, Global};
use std::marker::Model;

/// The ranks of the monomials that are multiples of no lead, rising.
/// A contract sees the monomials that it is among, and the ranks.
#[derive(Drop)]
pub struct Stair {
    n: u32,
    d: u32,
    ranks: Ranks,
    firsts: Vec<u32>,
}

impl Model for Stair {
    ghost use Rattle.staircase.specs.Stair.{Stairs, IsStairKept};

    ghost Value = { Stairs };

    ghost view = { λ s. record { shape = record { variables = s.n; degree = s.d }; ranks = s.ranks } };

    ghost invariant = { λ s. IsStairKept (record { variables = s.n; degree = s.d }) s.ranks s.firsts.items };
}

impl Stair {
    /// The staircase of leads, which are ranks of a table. It costs a test of each lead at each rank.
    pub fn of(alloc: Global, table: &RankTable, leads: &[u32]) -> Result<Stair, AllocError>
        requires { All (λ l. l < count table.now) leads.now }
        ensures shape { IfOk result (λ s. s.shape ≡ table.now) }
        ensures ranks { IfOk result (λ s. IsStairOf table.now leads.now s.ranks) }
    {
        let n = table.n();
        let d = table.d();
        let ranks = Ranks::from_vec(non_multiples(alloc, table, leads)?);
        let firsts = first_ranks(alloc, table, d)?;
        Ok(Stair {
            n,
            d,
            ranks,
            firsts,
        })
    }

    /// The ranks, rising.
    pub fn list(&self) -> &Ranks
        ensures { result.now ≡ self.now.ranks }
    {
        &self.ranks
    }

    /// How many ranks there are: the dimension of the quotient.
    pub fn dimension(&self) -> u32
        ensures { result ≡ length self.now.ranks }
    {
        self.ranks.len() as u32
    }

    /// The last rank. There is none exactly where there are no ranks.
    pub fn corner(&self) -> Option<u32>
        ensures { result ≡ slice_get self.now.ranks (length self.now.ranks - 1) }
    {
        self.ranks.as_slice().last().copied()
    }

    /// How many of the ranks are those of monomials of a degree.
    pub fn count(&self, degree: u32) -> u32
        ensures { result ≡ count_by (is_of_degree self.now.shape degree) self.now.ranks }
    {
        if degree > self.d {
            return 0;
        }
        let low = self.firsts[degree as usize];
        let high = self.firsts[degree as usize + 1];
        count_between(self.ranks.as_slice(), low, high) as u32
    }

    /// The least rank of a monomial of the greatest degree. There is none exactly where the monomial of each rank has a lesser degree.
    pub fn first_missing(&self) -> Option<u32>
        ensures { MatchOption result
            ((r : ℕ) → Contains self.now.ranks r → degree (mono_of_rank self.now.shape r) < self.now.shape.degree)
            (IsLeastOfDegree self.now.shape self.now.shape.degree self.now.ranks) }
    {
        let low = self.firsts[self.d as usize];
        first_from(self.ranks.as_slice(), low)
    }
}
