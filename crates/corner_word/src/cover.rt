//! Covers: which monomials are multiples of leads, and the corner from which on all are.

ghost use Rattle.std.specs.Prelude.{◌≡◌, ℕ, List, [], ◌∷◌, ◌++◌, ◌<◌, IfOk};
ghost use Rattle.local_order.specs.Shape.{count};
ghost use Rattle.mono_rank.specs.Cover.{IsCorner, corner_of_leads};
ghost use Rattle.corner_word.specs.Marks.{IsCoverOf};

use crate::marks::{lowered, mark_multiples};
use mono_rank::RankTable;
use std::alloc::{AllocError, Global};
use std::marker::Model;

/// The ranks of the multiples of the leads that were added, and the highest corner.
/// A contract sees the monomials that it is about, and the ranks of the multiples of the leads. These tell of no order
/// of the leads, so a list of leads is one that it is the cover of, `IsCoverOf`.
#[derive(Drop)]
pub struct Cover {
    n: u32,
    d: u32,
    marks: Vec<bool>,
    corner: u32,
}

impl Model for Cover {
    ghost use Rattle.corner_word.specs.Marks.{Covered, marked_from, IsCoverKept};

    ghost Value = { Covered };

    ghost view = { λ c. record { shape = record { variables = c.n; degree = c.d }; multiples = marked_from 0 c.marks.items } };

    ghost invariant = { λ c. IsCoverKept (record { variables = c.n; degree = c.d }) c.marks.items c.corner };
}

impl Cover {
    /// The cover of no leads, over the monomials of a table.
    pub fn new(alloc: Global, table: &RankTable) -> Result<Cover, AllocError>
        ensures shape { IfOk result (λ c. c.shape ≡ table.now) }
        ensures leads { IfOk result (λ c. IsCoverOf [] c) }
    {
        let count = table.count();
        Ok(Cover {
            n: table.n(),
            d: table.d(),
            marks: vec![in alloc; false; count as usize]?,
            corner: count,
        })
    }

    /// Adds a lead by its rank in a table of the same monomials. It costs a test of each rank from that of the lead on.
    pub fn add(&mut self, table: &RankTable, lead: u32)
        requires shape { table.now ≡ self.old.shape }
        requires low { lead < count self.old.shape }
        ensures shape { self.new.shape ≡ self.old.shape }
        ensures leads { (leads : List ℕ) → IsCoverOf leads self.old → IsCoverOf (leads ++ lead ∷ []) self.new }
    {
        mark_multiples(&mut self.marks, table, lead);
        self.corner = lowered(&self.marks, self.corner);
    }

    /// The highest corner: the least rank from which on each monomial is a multiple of a lead. It is kept, and only read here.
    pub fn corner(&self) -> u32
        ensures number { (leads : List ℕ) → IsCoverOf leads self.now → result ≡ corner_of_leads self.now.shape leads }
        ensures least { (leads : List ℕ) → IsCoverOf leads self.now → IsCorner self.now.shape leads result }
    {
        self.corner
    }
}
