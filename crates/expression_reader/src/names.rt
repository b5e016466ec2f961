//! What has been declared.

use prime_field::Field;
use script_grammar::Name;
use sparse_poly::{Letters, Poly, Polys};

/// A declared polynomial.
#[derive(Drop)]
pub struct NamedPoly {
    pub name: Name,
    pub value: Poly,
}

/// A declared ideal, by its generators.
#[derive(Drop)]
pub struct NamedIdeal {
    pub name: Name,
    pub gens: Polys,
}

/// The ring's name, its field and letters, the noether degree, and the declared polynomials and ideals.
#[derive(Clone, Copy)]
pub struct Names<'a> {
    pub ring: &'a [u8],
    pub field: Field,
    pub letters: Letters,
    pub d: u32,
    pub polys: &'a [NamedPoly],
    pub ideals: &'a [NamedIdeal],
}
