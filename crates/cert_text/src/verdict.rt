//! The verdict of a block, and what stands behind it.

ghost use Rattle.std.specs.Prelude.{◌≡◌, ◌∷◌, [], nat_le, codes, option_and_then, IfOk, Some};
ghost use Rattle.std.specs.Option.{option_map};
ghost use Rattle.cert_grammar.specs.Lines.{words_of, same_line};
ghost use Rattle.cert_text.specs.Gives.{Gives};
ghost use Rattle.cert_grammar.specs.Phrases.{whole, one_word, behind_word, words_times, keyword_at, number_at};
ghost use Rattle.cert_grammar.specs.Words.{mono_of_word};
ghost use Rattle.cert_grammar.specs.Reading.{line_at, verdict_of, stair_of, fitting_at, verdict_at};

use crate::lines::Lines;
use crate::members::alone_in;
use crate::ring::{mono_in_word, top_in_word};
use crate::stop::Stop;
use crate::words::{Words, is_ended, keyword, next, number, words_in};
use cert_grammar::{Fitting, Ring, Verdict};
use local_order::Mono;
use std::alloc::{AllocError, Global};

/// Whether the line says that the degree fits.
fn is_fits(line: &[u8]) -> bool
    ensures { result ≡ same_line (words_of line.now) (codes "fits" ∷ []) }
{
    let Some(word) = alone_in(line) else {
        return false;
    };
    word == b"fits".as_slice()
}

/// The word behind `too small`.
fn small_in(line: &[u8]) -> Option<&[u8]>
    ensures { option_map (λ t. t.now) result
        ≡ whole (behind_word (codes "too") (behind_word (codes "small") (one_word (λ w. Some w)))) (words_of line.now) }
{
    let words = keyword(words_in(line), b"too")?;
    let words = keyword(words, b"small")?;
    let (word, words) = next(words)?;
    if is_ended(words) { Some(word) } else { None }
}

/// The verdict of its line: nothing where the degree fits, else the monomial that is missing.
fn verdict_in(ring: &Ring, line: &[u8]) -> Option<Option<Mono>>
    ensures { result ≡ verdict_of ring.now (words_of line.now) }
{
    if is_fits(line) {
        return Some(None);
    }
    let word = small_in(line)?;
    let m = top_in_word(ring, word)?;
    Some(Some(m))
}

/// The number of monomials of a staircase, and the words behind it.
fn stair_count(line: &[u8]) -> Option<(u32, Words<'_>)>
    ensures { result ≡ option_and_then number_at (keyword_at (codes "stair") (words_of line.now)) }
{
    let words = keyword(words_in(line), b"stair")?;
    number(words)
}

/// So many monomials, and the words behind them. Nothing is reserved for them.
fn stair_words<'a>(
    alloc: Global,
    ring: &Ring,
    count: u32,
    words: Words<'a>,
) -> Result<Option<(Vec<Mono>, Words<'a>)>, AllocError>
    ensures { IfOk result (λ o. option_map (λ x. (x.0.items, x.1)) o ≡ words_times (one_word (mono_of_word ring.now)) count words.entry) }
{
    let mut stair = Vec::new(alloc);
    let mut left = words;
    for i in 0..count {
        let Some((word, rest)) = next(left) else {
            return Ok(None);
        };
        let Some(m) = mono_in_word(ring, word) else {
            return Ok(None);
        };
        stair.push(m)?;
        left = rest;
    }
    Ok(Some((stair, left)))
}

/// The monomials of the staircase's line.
fn stair_in(alloc: Global, ring: &Ring, line: &[u8]) -> Result<Option<Vec<Mono>>, AllocError>
    ensures { IfOk result (λ o. option_map (λ v. v.items) o ≡ stair_of ring.now (words_of line.now)) }
{
    let Some((count, words)) = stair_count(line) else {
        return Ok(None);
    };
    let Some((stair, left)) = stair_words(alloc, ring, count, words)? else {
        return Ok(None);
    };
    if is_ended(left) {
        return Ok(Some(stair));
    }
    Ok(None)
}

impl<'a> Lines<'a> {
    /// Takes the line of the staircase.
    fn stair(&mut self, alloc: Global, ring: &Ring) -> Result<Vec<Mono>, Stop>
        ensures { Gives (λ v. v.items) result self.new (line_at (stair_of ring.now) self.old) }
    {
        let Some((line, rest)) = self.front() else {
            return Err(Stop::Form);
        };
        let Some(stair) = stair_in(alloc, ring, line)? else {
            return Err(Stop::Form);
        };
        self.left = rest;
        Ok(stair)
    }

    /// Takes the line of the verdict.
    fn verdict_line(&mut self, ring: &Ring) -> Result<Option<Mono>, Stop>
        ensures { Gives (λ x. x) result self.new (line_at (verdict_of ring.now) self.old) }
    {
        let Some((line, rest)) = self.front() else {
            return Err(Stop::Form);
        };
        let Some(verdict) = verdict_in(ring, line) else {
            return Err(Stop::Form);
        };
        self.left = rest;
        Ok(verdict)
    }

    /// Takes what stands behind `fits`.
    fn fitting(&mut self, alloc: Global, ring: &Ring) -> Result<Fitting, Stop>
        ensures { Gives (λ x. x) result self.new (fitting_at ring.now self.old) }
    {
        let basis = self.basis(alloc, ring)?;
        let corner = self.corner(ring)?;
        let stair = self.stair(alloc, ring)?;
        Ok(Fitting::new(basis, corner, stair))
    }

    /// Takes the verdict, and what stands behind it.
    pub(crate) fn verdict(&mut self, alloc: Global, ring: &Ring) -> Result<Verdict, Stop>
        ensures { Gives (λ x. x) result self.new (verdict_at ring.now self.old) }
    {
        match self.verdict_line(ring)? {
            Some(missing) => Ok(Verdict::TooSmall(missing)),
            None => {
                let fitting = self.fitting(alloc, ring)?;
                Ok(Verdict::Fits(fitting))
            }
        }
    }
}
