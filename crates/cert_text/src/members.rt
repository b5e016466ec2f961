//! The parts of a block beside its entries.

ghost use Rattle.std.specs.Prelude.{◌≡◌, ◌∷◌, [], nat_le, codes, IfOk, Some};
ghost use Rattle.std.specs.Option.{option_map};
ghost use Rattle.local_order.specs.Limits.{max_monomials, max_generators};
ghost use Rattle.cert_grammar.specs.Lines.{words_of, same_line};
ghost use Rattle.cert_grammar.specs.Cert.{numbered as numbered_line};
ghost use Rattle.cert_text.specs.Gives.{Gives, GivesLine};
ghost use Rattle.cert_grammar.specs.Phrases.{whole, one_word};
ghost use Rattle.cert_grammar.specs.Words.{poly_of_word, nonzero_of_word};
ghost use Rattle.cert_grammar.specs.Reading.{line_at, alone_of, corner_of, given_at, poly_alone, counted_at, times_at};

use crate::lines::{Lines, word_behind};
use crate::ring::{mono_in_word, nonzero_in_word, poly_in_word};
use crate::stop::Stop;
use crate::words::{is_ended, keyword, next, words_in};
use cert_grammar::Ring;
use itoa::Buffer;
use local_order::Mono;
use sparse_poly::Poly;
use std::alloc::{AllocError, Global};

/// The word that the line is.
pub(crate) fn alone_in(line: &[u8]) -> Option<&[u8]>
    ensures { option_map (λ t. t.now) result ≡ whole (one_word (λ w. Some w)) (words_of line.now) }
{
    let (word, words) = next(words_in(line))?;
    if is_ended(words) { Some(word) } else { None }
}

/// The generator that the line is.
fn gen_in(alloc: Global, ring: &Ring, line: &[u8]) -> Result<Option<Poly>, AllocError>
    ensures { IfOk result (λ o. o ≡ alone_of (poly_of_word ring.now) (words_of line.now)) }
{
    let Some(word) = alone_in(line) else {
        return Ok(None);
    };
    poly_in_word(alloc, ring, word)
}

/// The member of the basis that the line is.
fn member_in(alloc: Global, ring: &Ring, line: &[u8]) -> Result<Option<Poly>, AllocError>
    ensures { IfOk result (λ o. o ≡ alone_of (nonzero_of_word ring.now) (words_of line.now)) }
{
    let Some(word) = alone_in(line) else {
        return Ok(None);
    };
    nonzero_in_word(alloc, ring, word)
}

/// The corner of a line: a monomial or none.
fn corner_in(ring: &Ring, line: &[u8]) -> Option<Option<Mono>>
    ensures { result ≡ corner_of ring.now (words_of line.now) }
{
    let word = word_behind(b"corner", line)?;
    if word == b"none".as_slice() {
        return Some(None);
    }
    match mono_in_word(ring, word) {
        Some(m) => Some(Some(m)),
        None => None,
    }
}

/// Whether the line is this word and this number.
pub(crate) fn is_numbered(line: &[u8], word: &[u8], n: u32) -> bool
    ensures { result ≡ same_line (words_of line.now) (numbered_line word.now n) }
{
    let Some(words) = keyword(words_in(line), word) else {
        return false;
    };
    let mut buffer = Buffer::new();
    let Some(words) = keyword(words, buffer.format(u64::from(n)).as_bytes()) else {
        return false;
    };
    is_ended(words)
}

impl<'a> Lines<'a> {
    /// Takes the line of this word and this number.
    pub(crate) fn given(&mut self, word: &[u8], n: u32) -> Result<(), Stop>
        ensures { GivesLine result self.new (given_at (numbered_line word.now n) self.old) }
    {
        let Some((line, rest)) = self.front() else {
            return Err(Stop::Form);
        };
        if !is_numbered(line, word, n) {
            return Err(Stop::Form);
        }
        self.left = rest;
        Ok(())
    }

    /// Takes the line of a generator.
    fn gen_line(&mut self, alloc: Global, ring: &Ring) -> Result<Poly, Stop>
        ensures { Gives (λ x. x) result self.new (line_at (alone_of (poly_of_word ring.now)) self.old) }
    {
        let Some((line, rest)) = self.front() else {
            return Err(Stop::Form);
        };
        let Some(poly) = gen_in(alloc, ring, line)? else {
            return Err(Stop::Form);
        };
        self.left = rest;
        Ok(poly)
    }

    /// Takes the line of a member of the basis.
    fn member(&mut self, alloc: Global, ring: &Ring) -> Result<Poly, Stop>
        ensures { Gives (λ x. x) result self.new (line_at (alone_of (nonzero_of_word ring.now)) self.old) }
    {
        let Some((line, rest)) = self.front() else {
            return Err(Stop::Form);
        };
        let Some(poly) = member_in(alloc, ring, line)? else {
            return Err(Stop::Form);
        };
        self.left = rest;
        Ok(poly)
    }

    /// Takes the number of generators, and the generators.
    pub(crate) fn gens(&mut self, alloc: Global, ring: &Ring) -> Result<Vec<Poly>, Stop>
        ensures { Gives (λ v. v.items) result self.new (counted_at (codes "gens") (λ m. nat_le m max_generators) (poly_alone (poly_of_word ring.now)) self.old) }
    {
        let count = self.numbered(b"gens", 64)?;
        self.many_gens(alloc, ring, count)
    }

    /// Takes so many generators. Nothing is reserved for them.
    fn many_gens(&mut self, alloc: Global, ring: &Ring, count: u32) -> Result<Vec<Poly>, Stop>
        ensures { Gives (λ v. v.items) result self.new (times_at (poly_alone (poly_of_word ring.now)) count 0 self.old) }
    {
        let mut gens = Vec::new(alloc);
        for i in 0..count {
            gens.push(self.gen_line(alloc, ring)?)?;
        }
        Ok(gens)
    }

    /// Takes the number of members of the basis, and the members.
    pub(crate) fn basis(&mut self, alloc: Global, ring: &Ring) -> Result<Vec<Poly>, Stop>
        ensures { Gives (λ v. v.items) result self.new (counted_at (codes "basis") (λ s. nat_le s max_monomials) (poly_alone (nonzero_of_word ring.now)) self.old) }
    {
        let count = self.numbered(b"basis", 4096)?;
        self.many_members(alloc, ring, count)
    }

    /// Takes so many members. Nothing is reserved for them.
    fn many_members(&mut self, alloc: Global, ring: &Ring, count: u32) -> Result<Vec<Poly>, Stop>
        ensures { Gives (λ v. v.items) result self.new (times_at (poly_alone (nonzero_of_word ring.now)) count 0 self.old) }
    {
        let mut members = Vec::new(alloc);
        for i in 0..count {
            members.push(self.member(alloc, ring)?)?;
        }
        Ok(members)
    }

    /// Takes the line of the corner.
    pub(crate) fn corner(&mut self, ring: &Ring) -> Result<Option<Mono>, Stop>
        ensures { Gives (λ x. x) result self.new (line_at (corner_of ring.now) self.old) }
    {
        let Some((line, rest)) = self.front() else {
            return Err(Stop::Form);
        };
        let Some(corner) = corner_in(ring, line) else {
            return Err(Stop::Form);
        };
        self.left = rest;
        Ok(corner)
    }
}
