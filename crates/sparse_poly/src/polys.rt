//! Lists of polynomials.

ghost use Rattle.std.specs.Prelude.{◌≡◌, ◌<◌, [], ◌∷◌, ◌++◌, length, IfOk, OnOk, OnErr, slice_get, Some};

use crate::poly::Poly;
use std::alloc::{AllocError, Global};
use std::marker::Model;

/// A list of polynomials.
#[derive(Drop)]
pub struct Polys {
    items: Vec<Poly>,
}

impl Model for Polys {
    ghost use Rattle.std.specs.Prelude.{List};
    ghost use Rattle.sparse_poly.specs.Poly.{Polynomial};

    ghost Value = { List Polynomial };

    ghost view = { λ l. l.items.items };
}

impl Polys {
    /// An empty list.
    pub fn new(alloc: Global) -> Polys
        ensures { result ≡ [] }
    {
        Polys {
            items: Vec::new(alloc),
        }
    }

    /// The list with these members. It takes no memory.
    pub fn from_vec(items: Vec<Poly>) -> Polys
        ensures { result ≡ items.items }
    {
        Polys { items }
    }

    /// The members. It takes no memory.
    pub fn into_vec(self) -> Vec<Poly>
        ensures { result.items ≡ self }
    {
        self.items
    }

    /// The number of members.
    pub fn len(&self) -> usize
        ensures { result ≡ length self.now }
    {
        self.items.len()
    }

    /// The member at a place, the first being 0.
    pub fn get(&self, i: usize) -> &Poly
        requires { i < length self.now }
        ensures { slice_get self.now i ≡ Some result.now }
    {
        &self.items[i]
    }

    /// The members.
    pub fn as_slice(&self) -> &[Poly]
        ensures { result.now ≡ self.now }
    {
        &self.items
    }

    /// Puts one more member at the end.
    pub fn push(&mut self, f: Poly) -> Result<(), AllocError>
        ensures ok { OnOk result (self.new ≡ self.old ++ f ∷ []) }
        ensures err { OnErr result (self.new ≡ self.old) }
    {
        self.items.push(f)?;
        Ok(())
    }

    /// A copy.
    pub fn copy(&self, alloc: Global) -> Result<Polys, AllocError>
        ensures { IfOk result (λ l. l ≡ self.now) }
    {
        let mut items = Vec::with_capacity(alloc, self.items.len())?;
        for f in &self.items {
            items.push(f.copy(alloc)?)?;
        }
        Ok(Polys { items })
    }
}
