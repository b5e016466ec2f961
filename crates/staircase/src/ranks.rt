//! Lists of ranks.

ghost use Rattle.std.specs.Prelude.{◌≡◌, ◌<◌, [], ◌∷◌, ◌++◌, length, OnOk, OnErr, slice_get, Some};

use std::alloc::{AllocError, Global};
use std::marker::Model;

/// A list of ranks of monomials.
#[derive(Drop)]
pub struct Ranks {
    items: Vec<u32>,
}

impl Model for Ranks {
    ghost use Rattle.std.specs.Prelude.{ℕ, List};

    ghost Value = { List ℕ };

    ghost view = { λ l. l.items.items };
}

impl Ranks {
    /// An empty list.
    pub fn new(alloc: Global) -> Ranks
        ensures { result ≡ [] }
    {
        Ranks {
            items: Vec::new(alloc),
        }
    }

    /// The list with these members. It takes no memory.
    pub fn from_vec(items: Vec<u32>) -> Ranks
        ensures { result ≡ items.items }
    {
        Ranks { items }
    }

    /// The members. It takes no memory.
    pub fn into_vec(self) -> Vec<u32>
        ensures { result.items ≡ self }
    {
        self.items
    }

    /// The members, lent.
    pub fn as_slice(&self) -> &[u32]
        ensures { result.now ≡ self.now }
    {
        &self.items
    }

    /// The number of members.
    pub fn len(&self) -> usize
        ensures { result ≡ length self.now }
    {
        self.items.len()
    }

    /// The member at a place, the first being 0.
    pub fn get(&self, i: usize) -> u32
        requires { i < length self.now }
        ensures { slice_get self.now i ≡ Some result }
    {
        self.items[i]
    }

    /// Puts one more member at the end.
    pub fn push(&mut self, rank: u32) -> Result<(), AllocError>
        ensures ok { OnOk result (self.new ≡ self.old ++ rank ∷ []) }
        ensures err { OnErr result (self.new ≡ self.old) }
    {
        self.items.push(rank)?;
        Ok(())
    }
}
