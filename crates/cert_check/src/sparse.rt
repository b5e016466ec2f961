//! A polynomial by rank, over an ordered map.

ghost use Rattle.std.specs.Prelude.{◌≡◌, ◌≢◌, ◌+◌, ◌%◌, ◌<◌, ◌≤◌, ℕ, OnOk, IfOk, MatchOption, All, IsTrue, ◌↔◌, ◌==◌, if◌then◌else◌, Some};
ghost use Rattle.std.specs.Ordering.{nat_cmp};
ghost use Rattle.std.specs.BTreeMap.{get};
ghost use Rattle.rank_algebra.specs.Vector.{cut_at};
ghost use Rattle.entry_code.specs.Terms.{vector_of_terms};
ghost use Rattle.cert_check.specs.Sparse.{at, IsFirstTerm, IsLastRank, AreRisingTerms};

use entry_code::{Term, Terms};
use prime_field::Field;
use std::alloc::{AllocError, Global};
use std::collections::BTreeMap;

/// An ordered map from ranks to coefficients that aren't 0.
#[derive(Drop)]
pub(crate) struct Sparse {
    terms: BTreeMap<u32, u32>,
    ghost some: { (r : ℕ) → get nat_cmp terms r ≡ Some 0 → ⊥ },
}

impl Sparse {
    /// The polynomial 0.
    pub(crate) fn new(alloc: Global) -> Sparse
        ensures { (r : ℕ) → at result.terms r ≡ 0 }
    {
        Sparse {
            terms: BTreeMap::new(alloc),
        }
    }

    /// Adds a residue to the coefficient at a rank.
    pub(crate) fn add_at(
        &mut self,
        field: &Field,
        rank: u32,
        residue: u32,
    ) -> Result<(), AllocError>
        requires residue { residue < field.now }
        requires residues { at self.old.terms rank < field.now }
        ensures { OnOk result ((r : ℕ) → at self.new.terms r
            ≡ (if rank == r then (at self.old.terms r + residue) % field.now else at self.old.terms r)) }
    {
        let before = self.coefficient(rank);
        let sum = field.add(before, residue);
        if sum == 0 {
            self.terms.remove(&rank);
        } else {
            self.terms.insert(rank, sum)?;
        }
        Ok(())
    }

    /// The coefficient at a rank.
    pub(crate) fn coefficient(&self, rank: u32) -> u32
        ensures { result ≡ at self.now.terms rank }
    {
        match self.terms.get(&rank) {
            Some(c) => *c,
            None => 0,
        }
    }

    /// The term of the least rank: the leading one.
    pub(crate) fn first(&self) -> Option<Term>
        ensures { MatchOption result ((r : ℕ) → at self.now.terms r ≡ 0) (IsFirstTerm (at self.now.terms)) }
    {
        let (rank, coef) = self.terms.first_key_value()?;
        Some(Term {
            rank: *rank,
            coef: *coef,
        })
    }

    /// Whether this is the polynomial 0.
    pub(crate) fn is_zero(&self) -> bool
        ensures { IsTrue result ↔ ((r : ℕ) → at self.now.terms r ≡ 0) }
    {
        match self.first() {
            Some(_) => false,
            None => true,
        }
    }

    /// The greatest rank of a term.
    pub(crate) fn last_rank(&self) -> Option<u32>
        ensures { MatchOption result ((r : ℕ) → at self.now.terms r ≡ 0) (IsLastRank (at self.now.terms)) }
    {
        let (rank, _coef) = self.terms.last_key_value()?;
        Some(*rank)
    }

    /// Drops every term of rank `w` or more.
    pub(crate) fn cut(&mut self, w: u32)
        ensures { (r : ℕ) → at self.new.terms r ≡ cut_at w (at self.old.terms) r }
    {
        while let Some((rank, _coef)) = self.terms.last_key_value() {
            if *rank < w {
                return;
            }
            self.terms.pop_last();
        }
    }

    /// The terms by rank.
    pub(crate) fn terms(&self, alloc: Global) -> Result<Terms, AllocError>
        ensures rising { IfOk result (λ ts. AreRisingTerms ts.list) }
        ensures value { IfOk result (λ ts. (r : ℕ) → vector_of_terms ts.list r ≡ at self.now.terms r) }
        ensures some { IfOk result (λ ts. All (λ t. t.coef ≢ 0) ts.list) }
    {
        let mut terms = Terms::room(alloc, 0)?;
        for (rank, coef) in self.terms.iter() {
            terms.push(Term {
                rank: *rank,
                coef: *coef,
            })?;
        }
        Ok(terms)
    }
}
