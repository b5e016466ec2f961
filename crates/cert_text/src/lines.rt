//! The lines of a text.

ghost use Rattle.std.specs.Prelude.{◌≡◌, ◌<◌, ◌^◌, List, [], ◌∷◌, length, drop, take, nat_le, decimal, codes, option_and_then, Some, IfOk, MatchOption};
ghost use Rattle.std.specs.Option.{option_map};
ghost use Rattle.local_order.specs.Limits.{max_monomials};
ghost use Rattle.cert_grammar.specs.Lines.{lines_of, words_of};
ghost use Rattle.cert_grammar.specs.Phrases.{keyword_at, whole, behind_word, one_word};
ghost use Rattle.cert_text.specs.Gives.{Gives, IsUnended, with_front};
ghost use Rattle.cert_grammar.specs.Reading.{line_at, reading_of, poly_of, step_of, reads_at, item_of, generator_of, pair_of, entry_at, numbered_of, counted_at, times_at};

use crate::ring::nonzero_in_word;
use crate::stop::Stop;
use crate::words::{Words, cut, is_ended, keyword, next, number, numeral, words_in};
use cert_grammar::{Entry, Ring, Step};
use entry_code::{Item, Reading};
use itoa::Buffer;
use sparse_poly::Poly;
use std::alloc::{AllocError, Global};
use std::marker::Model;

/// The lines that are left of a text. A contract sees the list of them, and bytes without an end as a line without words.
#[derive(Drop)]
pub(crate) struct Lines<'a> {
    pub(crate) left: &'a [u8],
}

impl<'a> Model for Lines<'a> {
    ghost use Rattle.std.specs.Prelude.{List};
    ghost use Rattle.cert_grammar.specs.Lines.{Line, lines_of};

    ghost Value = { List Line };

    ghost view = { λ l. lines_of l.left.now };
}

/// The lines of these bytes.
pub(crate) fn lines_in(bytes: &[u8]) -> Lines<'_>
    ensures { result ≡ lines_of bytes.now }
{
    Lines { left: bytes }
}

/// The reading of a line.
fn reading_in(line: &[u8]) -> Option<Reading>
    ensures { result ≡ reading_of (words_of line.now) }
{
    let words = keyword(words_in(line), b"read")?;
    let (known, words) = number(words)?;
    let (corner, words) = number(words)?;
    if is_ended(words) {
        Some(Reading { known, corner })
    } else {
        None
    }
}

/// The polynomial of an entry's last line.
fn poly_in(alloc: Global, ring: &Ring, line: &[u8]) -> Result<Option<Poly>, AllocError>
    ensures { IfOk result (λ o. o ≡ poly_of ring.now (words_of line.now)) }
{
    let Some(word) = word_behind(b"poly", line) else {
        return Ok(None);
    };
    nonzero_in_word(alloc, ring, word)
}

/// The word behind this one, where the line has just the two.
pub(crate) fn word_behind<'a>(k: &[u8], line: &'a [u8]) -> Option<&'a [u8]>
    ensures { option_map (λ t. t.now) result ≡ whole (behind_word k.now (one_word (λ w. Some w))) (words_of line.now) }
{
    let words = keyword(words_in(line), k)?;
    let (word, words) = next(words)?;
    if is_ended(words) { Some(word) } else { None }
}

/// The item of an entry's first line.
fn item_in(i: u32, line: &[u8]) -> Option<Item>
    ensures { result ≡ item_of i (words_of line.now) }
{
    match generator_in(i, line) {
        Some(g) => Some(Item::Generator(g)),
        None => match pair_in(i, line) {
            Some((a, b)) => Some(Item::Pair(a, b)),
            None => None,
        },
    }
}

/// The words of an entry's first line from the third on.
fn behind_entry<'a>(i: u32, line: &'a [u8]) -> Option<Words<'a>>
    ensures { result ≡ option_and_then (keyword_at (decimal i)) (keyword_at (codes "entry") (words_of line.now)) }
{
    let words = keyword(words_in(line), b"entry")?;
    let mut buffer = Buffer::new();
    keyword(words, buffer.format(u64::from(i)).as_bytes())
}

/// The number of a generator.
fn generator_in(i: u32, line: &[u8]) -> Option<u32>
    ensures { option_map (λ g. Item.Generator g) result ≡ generator_of i (words_of line.now) }
{
    let words = keyword(behind_entry(i, line)?, b"gen")?;
    let (g, words) = number(words)?;
    if is_ended(words) { Some(g) } else { None }
}

/// The numbers of a pair.
fn pair_in(i: u32, line: &[u8]) -> Option<(u32, u32)>
    ensures { option_map (λ x. Item.Pair x.0 x.1) result ≡ pair_of i (words_of line.now) }
{
    let words = keyword(behind_entry(i, line)?, b"pair")?;
    let (a, words) = number(words)?;
    let (b, words) = number(words)?;
    if is_ended(words) { Some((a, b)) } else { None }
}

/// The number of a line of a word and a number.
pub(crate) fn numbered_in(word: &[u8], limit: u32, line: &[u8]) -> Option<u32>
    ensures { result ≡ numbered_of word.now (λ n. nat_le n limit) (words_of line.now) }
{
    let words = keyword(words_in(line), word)?;
    let (text, words) = next(words)?;
    let n = numeral(text, limit)?;
    if is_ended(words) { Some(n) } else { None }
}

impl<'a> Lines<'a> {
    /// The next line, and the bytes behind it, where it has an end.
    pub(crate) fn front(&self) -> Option<(&'a [u8], &'a [u8])>
        ensures { MatchOption result (IsUnended self.now) (λ x. self.now ≡ words_of x.0.now ∷ lines_of x.1.now) }
    {
        let (line, behind) = cut(b'\n', self.left);
        match behind {
            Some(rest) => Some((line, rest)),
            None => None,
        }
    }

    /// How many lines are left.
    pub(crate) fn count(&self) -> usize
        ensures value { result ≡ length self.now }
        ensures few { result < 2 ^ 63 }
    {
        let mut count = 0;
        let mut rest = self.left;
        while !rest.is_empty() {
            count += 1;
            let (_, behind) = cut(b'\n', rest);
            match behind {
                Some(bytes) => rest = bytes,
                None => return count,
            }
        }
        count
    }

    /// Takes the line of a reading.
    pub(crate) fn reading(&mut self) -> Result<Reading, Stop>
        ensures { Gives (λ x. x) result self.new (line_at reading_of self.old) }
    {
        let Some((line, rest)) = self.front() else {
            return Err(Stop::Form);
        };
        let Some(reading) = reading_in(line) else {
            return Err(Stop::Form);
        };
        self.left = rest;
        Ok(reading)
    }

    /// Takes a line behind an entry's first reading.
    fn step(&mut self, alloc: Global, ring: &Ring) -> Result<Step, Stop>
        ensures { Gives (λ x. x) result self.new (line_at (step_of ring.now) self.old) }
    {
        let Some((line, rest)) = self.front() else {
            return Err(Stop::Form);
        };
        if let Some(poly) = poly_in(alloc, ring, line)? {
            self.left = rest;
            return Ok(Step::Last(poly));
        }
        let Some(reading) = reading_in(line) else {
            return Err(Stop::Form);
        };
        self.left = rest;
        Ok(Step::OneMore(reading))
    }

    /// Takes the readings up to the polynomial.
    fn reads(
        &mut self,
        alloc: Global,
        ring: &Ring,
        first: Reading,
    ) -> Result<(Vec<Reading>, Poly), Stop>
        ensures { Gives (λ x. (x.0.items, x.1)) result self.new (with_front (first ∷ []) (reads_at ring.now self.old)) }
    {
        let mut reads = Vec::new(alloc);
        reads.push(first)?;
        loop {
            match self.step(alloc, ring)? {
                Step::OneMore(reading) => reads.push(reading)?,
                Step::Last(poly) => return Ok((reads, poly)),
            }
        }
    }

    /// Takes an entry's first line, of the entry of that number.
    fn item(&mut self, i: u32) -> Result<Item, Stop>
        ensures { Gives (λ x. x) result self.new (line_at (item_of i) self.old) }
    {
        let Some((line, rest)) = self.front() else {
            return Err(Stop::Form);
        };
        let Some(item) = item_in(i, line) else {
            return Err(Stop::Form);
        };
        self.left = rest;
        Ok(item)
    }

    /// Takes the entry of that number.
    fn entry(&mut self, alloc: Global, ring: &Ring, i: u32) -> Result<Entry, Stop>
        ensures { Gives (λ x. x) result self.new (entry_at ring.now i self.old) }
    {
        let item = self.item(i)?;
        let first = self.reading()?;
        let (reads, poly) = self.reads(alloc, ring, first)?;
        Ok(Entry::new(item, reads, poly))
    }

    /// Takes the line of a word and a number that is at most `limit`.
    pub(crate) fn numbered(&mut self, word: &[u8], limit: u32) -> Result<u32, Stop>
        ensures { Gives (λ x. x) result self.new (line_at (numbered_of word.now (λ n. nat_le n limit)) self.old) }
    {
        let Some((line, rest)) = self.front() else {
            return Err(Stop::Form);
        };
        let Some(n) = numbered_in(word, limit, line) else {
            return Err(Stop::Form);
        };
        self.left = rest;
        Ok(n)
    }

    /// Takes the number of entries, and the entries.
    pub(crate) fn entries(&mut self, alloc: Global, ring: &Ring) -> Result<Vec<Entry>, Stop>
        ensures { Gives (λ v. v.items) result self.new (counted_at (codes "entries") (λ e. nat_le e max_monomials) (entry_at ring.now) self.old) }
    {
        let count = self.numbered(b"entries", 4096)?;
        self.many_entries(alloc, ring, count)
    }

    /// Takes so many entries. Nothing is reserved for them.
    fn many_entries(&mut self, alloc: Global, ring: &Ring, count: u32) -> Result<Vec<Entry>, Stop>
        ensures { Gives (λ v. v.items) result self.new (times_at (entry_at ring.now) count 0 self.old) }
    {
        let mut entries = Vec::new(alloc);
        for i in 0..count {
            entries.push(self.entry(alloc, ring, i)?)?;
        }
        Ok(entries)
    }
}
