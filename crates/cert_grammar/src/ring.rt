//! The ring of a block.

ghost use Rattle.std.specs.Prelude.{◌≡◌, ◌<◌, ◌≤◌};
ghost use Rattle.local_order.specs.Limits.{max_degree};

use prime_field::Field;
use sparse_poly::Letters;
use std::marker::Model;

/// The field of the coefficients, the letters of the variables and the degree beyond which nothing stands.
#[derive(Drop)]
pub struct Ring {
    field: Field,
    letters: Letters,
    d: u32,
}

impl Model for Ring {
    ghost use Rattle.std.specs.Prelude.{◌<◌, ◌≤◌};
    ghost use Rattle.local_order.specs.Limits.{max_degree};
    ghost use Rattle.cert_grammar.specs.Words.{Ring as RingValue};

    ghost Value = { RingValue };

    ghost view = { λ r. record { p = r.field; letters = r.letters; d = r.d } };

    ghost invariant = { λ r. (0 < r.field) × (r.d ≤ max_degree) };
}

impl Ring {
    /// The ring of these parts.
    pub fn new(field: Field, letters: Letters, d: u32) -> Ring
        requires some { 0 < field }
        requires low { d ≤ max_degree }
        ensures { result ≡ record { p = field; letters = letters; d = d } }
    {
        Ring { field, letters, d }
    }

    /// The field of the coefficients.
    pub fn field(&self) -> &Field
        ensures value { result.now ≡ self.now.p }
        ensures some { 0 < self.now.p }
    {
        &self.field
    }

    /// The letters of the variables.
    pub fn letters(&self) -> &Letters
        ensures { result.now ≡ self.now.letters }
    {
        &self.letters
    }

    /// The degree beyond which nothing stands.
    pub fn d(&self) -> u32
        ensures value { result ≡ self.now.d }
        ensures low { self.now.d ≤ max_degree }
    {
        self.d
    }
}
