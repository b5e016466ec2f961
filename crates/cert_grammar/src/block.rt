//! What the lines of a block give, and those of a certificate.

ghost use Rattle.std.specs.Prelude.{◌≡◌};

use crate::entry::Entry;
use crate::ring::Ring;
use local_order::Mono;
use sparse_poly::Poly;
use std::marker::Model;

/// What is claimed of a problem whose degree fits.
#[derive(Drop)]
pub struct Fitting {
    basis: Vec<Poly>,
    corner: Option<Mono>,
    stair: Vec<Mono>,
}

impl Model for Fitting {
    ghost use Rattle.cert_grammar.specs.Entries.{Fitting as FittingValue};

    ghost Value = { FittingValue };

    ghost view = { λ f. record { basis = f.basis.items; corner = f.corner; stair = f.stair.items } };
}

impl Fitting {
    /// What is claimed by these parts. It takes no memory.
    pub fn new(basis: Vec<Poly>, corner: Option<Mono>, stair: Vec<Mono>) -> Fitting
        ensures { result ≡ record { basis = basis.items; corner = corner; stair = stair.items } }
    {
        Fitting {
            basis,
            corner,
            stair,
        }
    }

    /// Its parts. It takes no memory.
    pub fn into_parts(self) -> (Vec<Poly>, Option<Mono>, Vec<Mono>)
        ensures basis { result.0.items ≡ self.basis }
        ensures corner { result.1 ≡ self.corner }
        ensures stair { result.2.items ≡ self.stair }
    {
        (self.basis, self.corner, self.stair)
    }
}

/// Whether the degree fits.
#[derive(Drop)]
pub enum Verdict {
    Fits(Fitting),
    TooSmall(Mono),
}

/// A problem and what is certified of it.
#[derive(Drop)]
pub struct Block {
    ring: Ring,
    gens: Vec<Poly>,
    entries: Vec<Entry>,
    verdict: Verdict,
}

impl Model for Block {
    ghost use Rattle.cert_grammar.specs.Blocks.{Block as BlockValue};

    ghost Value = { BlockValue };

    ghost view = { λ b. record { ring = b.ring; gens = b.gens.items; entries = b.entries.items; verdict = b.verdict } };
}

impl Block {
    /// The block of these parts. It takes no memory.
    pub fn new(ring: Ring, gens: Vec<Poly>, entries: Vec<Entry>, verdict: Verdict) -> Block
        ensures { result ≡ record { ring = ring; gens = gens.items; entries = entries.items; verdict = verdict } }
    {
        Block {
            ring,
            gens,
            entries,
            verdict,
        }
    }

    /// Its parts. It takes no memory.
    pub fn into_parts(self) -> (Ring, Vec<Poly>, Vec<Entry>, Verdict)
        ensures ring { result.0 ≡ self.ring }
        ensures gens { result.1.items ≡ self.gens }
        ensures entries { result.2.items ≡ self.entries }
        ensures verdict { result.3 ≡ self.verdict }
    {
        (self.ring, self.gens, self.entries, self.verdict)
    }
}
