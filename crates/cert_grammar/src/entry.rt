//! What the lines of an entry give.

ghost use Rattle.std.specs.Prelude.{◌≡◌};

use entry_code::{Item, Reading};
use sparse_poly::Poly;
use std::marker::Model;

/// What stands in a line behind an entry's first reading: one more reading, or its polynomial.
#[derive(Drop)]
pub enum Step {
    OneMore(Reading),
    Last(Poly),
}

/// An entry. A contract sees its item, its readings and its polynomial.
#[derive(Drop)]
pub struct Entry {
    item: Item,
    reads: Vec<Reading>,
    poly: Poly,
}

impl Model for Entry {
    ghost use Rattle.cert_grammar.specs.Entries.{Entry as EntryValue};

    ghost Value = { EntryValue };

    ghost view = { λ e. record { item = e.item; reads = e.reads.items; poly = e.poly } };
}

impl Entry {
    /// The entry of these parts. It takes no memory.
    pub fn new(item: Item, reads: Vec<Reading>, poly: Poly) -> Entry
        ensures { result ≡ record { item = item; reads = reads.items; poly = poly } }
    {
        Entry { item, reads, poly }
    }

    /// Where it comes from.
    pub fn item(&self) -> Item
        ensures { result ≡ self.now.item }
    {
        self.item
    }

    /// Its readings.
    pub fn reads(&self) -> &[Reading]
        ensures { result.now ≡ self.now.reads }
    {
        &self.reads
    }

    /// Its polynomial.
    pub fn poly(&self) -> &Poly
        ensures { result.now ≡ self.now.poly }
    {
        &self.poly
    }
}
