//! Tables of ranks.

ghost use Rattle.std.specs.Prelude.{◌≡◌, ℕ, List, ◌+◌, ◌<◌, ◌≤◌, ◌↔◌, length, IsTrue, IfSome, MatchOption, MatchResult};
ghost use Rattle.local_order.specs.Limits.{max_degree, max_variables};
ghost use Rattle.local_order.specs.Mono.{degree, mono_times, Divides};
ghost use Rattle.local_order.specs.Count.{monomial_count};
ghost use Rattle.local_order.specs.Shape.{Shape, count};
ghost use Rattle.mono_rank.specs.Rank.{HasRank, fewer};
ghost use Rattle.mono_rank.specs.Laws.{numbering, rank_quotient, rank_cofactor};
ghost use Rattle.mono_rank.specs.Next.{run_of};
ghost use Rattle.mono_rank.specs.Stored.{HasLimits};
ghost use Rattle.mono_rank.specs.Table.{IsRefusal};

use crate::build::{counts_below, falling};
use crate::place::place_of;
use local_order::{MAX_MONOMIALS, Mono, monomial_count as count_of};
use std::alloc::Global;
use std::marker::Model;
use thiserror::Error;

/// Why there is no table.
#[derive(Clone, Copy, Debug, PartialEq, Eq, Error)]
pub enum RankError {
    /// There are more than [`MAX_MONOMIALS`] monomials, as many as told.
    #[error("{0} monomials")]
    TooManyMonomials(u64),
    /// Memory ran out.
    #[error("out of memory")]
    Memory,
}

/// The monomials in one to eight variables of bounded degree, numbered from 0, the greatest in the order ds first.
/// A contract sees the number of variables and the greatest degree.
#[derive(Drop)]
pub struct RankTable {
    n: u32,
    d: u32,
    monos: Vec<Mono>,
    counts: Vec<u64>,
}

impl Model for RankTable {
    ghost use Rattle.local_order.specs.Shape.{Shape};
    ghost use Rattle.mono_rank.specs.Stored.{IsTable};

    ghost Value = { Shape };

    ghost view = { λ t. record { variables = t.n; degree = t.d } };

    ghost invariant = { λ t. IsTable (record { variables = t.n; degree = t.d }) t.monos.items t.counts.items };
}

impl RankTable {
    /// The table of the monomials in `n` variables of degree at most `d`.
    pub fn new(alloc: Global, n: u32, d: u32) -> Result<RankTable, RankError>
        requires some { 1 ≤ n }
        requires few { n ≤ max_variables }
        requires low { d ≤ max_degree }
        ensures { MatchResult result
            (λ t. (t ≡ record { variables = n; degree = d }) × (monomial_count n d ≤ MAX_MONOMIALS))
            (IsRefusal n d) }
    {
        let count = count_of(n, d);
        if count > MAX_MONOMIALS {
            return Err(RankError::TooManyMonomials(count));
        }
        let Ok(monos) = falling(alloc, n, d, count as u32) else {
            return Err(RankError::Memory);
        };
        let Ok(counts) = counts_below(alloc, d) else {
            return Err(RankError::Memory);
        };
        Ok(RankTable {
            n,
            d,
            monos,
            counts,
        })
    }

    /// The number of variables.
    pub fn n(&self) -> u32
        ensures value { result ≡ self.now.variables }
        ensures limits { HasLimits self.now }
    {
        self.n
    }

    /// The greatest degree.
    pub fn d(&self) -> u32
        ensures value { result ≡ self.now.degree }
        ensures limits { HasLimits self.now }
    {
        self.d
    }

    /// How many monomials there are.
    pub fn count(&self) -> u32
        ensures value { result ≡ count self.now }
        ensures small { result ≤ MAX_MONOMIALS }
        ensures limits { HasLimits self.now }
    {
        self.monos.len() as u32
    }

    /// The rank of a monomial. There is none where its degree is too great.
    /// It costs as many additions as there are variables, each of a number of a small table.
    pub fn rank(&self, m: &Mono) -> Option<u32>
        requires { length m.now ≡ self.now.variables }
        ensures { MatchOption result (self.now.degree < degree m.now) (HasRank self.now m.now) }
    {
        if m.degree() > self.d {
            return None;
        }
        Some(place_of(&self.counts, self.d, m))
    }

    /// The monomial of a rank, by a look-up.
    pub fn mono(&self, rank: u32) -> Mono
        requires { rank < count self.now }
        ensures { HasRank self.now result rank }
    {
        self.monos[rank as usize]
    }

    /// The degree of the monomial of a rank, by a look-up.
    pub fn degree_of(&self, rank: u32) -> u32
        requires { rank < count self.now }
        ensures value { (m : List ℕ) → HasRank self.now m rank → result ≡ degree m }
        ensures low { result ≤ self.now.degree }
    {
        self.monos[rank as usize].degree()
    }

    /// The rank of the product of the monomials of two ranks. There is none where its degree is too great.
    /// It costs two look-ups, an addition for each of eight exponents, and what [`RankTable::rank`] costs.
    pub fn times_rank(&self, a: u32, b: u32) -> Option<u32>
        requires first { a < count self.now }
        requires second { b < count self.now }
        ensures { (x y : List ℕ) → HasRank self.now x a → HasRank self.now y b
            → MatchOption result (self.now.degree < degree (mono_times x y))
            (HasRank self.now (mono_times x y)) }
    {
        let product = self.monos[a as usize].times(&self.monos[b as usize])?;
        self.rank(&product)
    }

    /// The rank of the quotient of the monomial of one rank by that of another. There is none where it doesn't divide.
    /// It costs two look-ups, a difference for each of eight exponents, and what [`RankTable::rank`] costs.
    pub fn quotient_rank(&self, rank: u32, divisor: u32) -> Option<u32>
        requires whole { rank < count self.now }
        requires part { divisor < count self.now }
        ensures value { result ≡ rank_quotient (numbering self.now) rank divisor }
        ensures low { IfSome result (λ q. q < count self.now) }
    {
        let quotient = self.mono(rank).quotient(&self.mono(divisor))?;
        self.rank(&quotient)
    }

    /// The rank of what the monomial of rank `a` lacks to its least common multiple with that of rank `b`.
    pub fn cofactor_rank(&self, a: u32, b: u32) -> u32
        requires first { a < count self.now }
        requires second { b < count self.now }
        ensures value { result ≡ rank_cofactor (numbering self.now) a b }
        ensures low { result < count self.now }
    {
        let mono = self.mono(a);
        let lcm = mono.lcm(&self.mono(b));
        let cofactor = lcm.quotient(&mono).unwrap();
        self.rank(&cofactor).unwrap()
    }

    /// How many ranks from this one on form a run: their monomials come from the first by trading powers of the first variable for
    /// powers of the second. They have one degree, and their products with any monomial have ranks that follow each other too, so
    /// the rank of the first product tells those of the others. It costs a look-up.
    pub fn run_from(&self, rank: u32) -> u32
        requires { rank < count self.now }
        ensures value { (m : List ℕ) → HasRank self.now m rank → result ≡ run_of m }
        ensures some { 1 ≤ result }
        ensures within { rank + result ≤ count self.now }
        ensures degrees { (y z : List ℕ) (k : ℕ) → k < result → HasRank self.now y rank
            → HasRank self.now z (rank + k) → degree z ≡ degree y }
        ensures products { (x y z : List ℕ) (a k r : ℕ) → k < result → HasRank self.now x a
            → HasRank self.now y rank → HasRank self.now z (rank + k)
            → HasRank self.now (mono_times x y) r → HasRank self.now (mono_times x z) (r + k) }
    {
        run_length(&self.monos[rank as usize])
    }

    /// Whether the monomial of rank `a` divides that of rank `b`.
    pub fn divides_rank(&self, a: u32, b: u32) -> bool
        requires first { a < count self.now }
        requires second { b < count self.now }
        ensures { (x y : List ℕ) → HasRank self.now x a → HasRank self.now y b
            → IsTrue result ↔ Divides x y }
    {
        self.monos[a as usize].divides(&self.monos[b as usize])
    }

    /// How many monomials have a degree below `d`: the rank of the first of degree `d`.
    pub fn first_of_degree(&self, d: u32) -> u32
        requires { d ≤ self.now.degree }
        ensures value { result ≡ fewer self.now.variables d }
        ensures small { result < count self.now }
    {
        self.counts[(8 * d + self.n - 1) as usize] as u32
    }
}

/// How many monomials come from this one by trading powers of the first variable for powers of the second, itself with them.
fn run_length(m: &Mono) -> u32
    requires { 1 ≤ length m.now }
    ensures { result ≡ run_of m.now }
{
    if m.n() == 1 {
        1
    } else {
        u32::from(m.exp(0)) + 1
    }
}
