//! The line of the variables, and the ring.

ghost use Rattle.std.specs.Prelude.{◌≡◌, codes, option_and_then};
ghost use Rattle.cert_grammar.specs.Lines.{words_of};
ghost use Rattle.cert_text.specs.Gives.{Gives};
ghost use Rattle.cert_grammar.specs.Reading.{line_at, vars_of, bytes_of, if_letters, ring_at, block_at};

use crate::lines::Lines;
use crate::stop::Stop;
use crate::words::{Words, is_ended, keyword, next, words_in};
use cert_grammar::{Block as BlockLines, Ring};
use sparse_poly::Letters;
use std::alloc::Global;

/// The letters that the words are.
fn letters_in(words: Words<'_>) -> Option<Letters>
    ensures { result ≡ option_and_then if_letters (bytes_of words.entry) }
{
    let mut bytes = [0u8; 8];
    let mut left = words;
    for i in 0..8 {
        let Some((word, rest)) = next(left) else {
            return Letters::new(&bytes[..i]);
        };
        if word.len() != 1 {
            return None;
        }
        bytes[i] = word[0];
        left = rest;
    }
    if is_ended(left) {
        Letters::new(&bytes)
    } else {
        None
    }
}

/// The letters of the line of the variables.
fn vars_in(line: &[u8]) -> Option<Letters>
    ensures { result ≡ vars_of (words_of line.now) }
{
    let words = keyword(words_in(line), b"vars")?;
    letters_in(words)
}

impl<'a> Lines<'a> {
    /// Takes the line of the variables.
    fn vars(&mut self) -> Result<Letters, Stop>
        ensures { Gives (λ x. x) result self.new (line_at vars_of self.old) }
    {
        let Some((line, rest)) = self.front() else {
            return Err(Stop::Form);
        };
        let Some(letters) = vars_in(line) else {
            return Err(Stop::Form);
        };
        self.left = rest;
        Ok(letters)
    }

    /// Takes the lines of the ring.
    fn ring(&mut self) -> Result<Ring, Stop>
        ensures { Gives (λ x. x) result self.new (ring_at self.old) }
    {
        let field = self.field()?;
        let letters = self.vars()?;
        let d = self.degree(letters.len() as u32)?;
        Ok(Ring::new(field, letters, d))
    }

    /// Takes the lines of the block of that number.
    pub(crate) fn block_lines(&mut self, alloc: Global, b: u32) -> Result<BlockLines, Stop>
        ensures { Gives (λ x. x) result self.new (block_at b self.old) }
    {
        self.given(b"block", b)?;
        let ring = self.ring()?;
        let gens = self.gens(alloc, &ring)?;
        let entries = self.entries(alloc, &ring)?;
        let verdict = self.verdict(alloc, &ring)?;
        self.given(b"end", b)?;
        Ok(BlockLines::new(ring, gens, entries, verdict))
    }
}
