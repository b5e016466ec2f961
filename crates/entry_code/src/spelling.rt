//! Which words are those of an entry.

ghost use Rattle.std.specs.Prelude.{◌≡◌, ◌+◌, ◌<◌, ◌≤◌, ◌↔◌, ◌^◌, map, take, drop, length, get_or, All, IsTrue};
ghost use Rattle.entry_code.specs.Words.{IsItem, IsReading, AreRising, HasCounts, ArePassed, item_in, reading_in, term_in};

use crate::item::Item;
use crate::reading::Reading;
use crate::term::Term;

/// The most generators of an ideal.
const MAX_GENERATORS: u64 = 64;

/// The most monomials of a ring that is cut.
const MAX_MONOMIALS: u64 = 4096;

/// The item of a word that is one's.
pub(crate) fn item_in(word: u64) -> Item
    requires { IsItem (item_in word) }
    ensures { result ≡ item_in word }
{
    if word < 1 << 32 {
        Item::Generator(word as u32)
    } else {
        let pair = word - (1 << 32);
        Item::Pair((pair / (1 << 16)) as u32, (pair % (1 << 16)) as u32)
    }
}

/// The reading of a word that is one's.
pub(crate) fn reading_in(word: u64) -> Reading
    requires { IsReading (reading_in word) }
    ensures { result ≡ reading_in word }
{
    Reading {
        known: (word / (1 << 16)) as u32,
        corner: (word % (1 << 16)) as u32,
    }
}

/// The term of a word.
pub(crate) fn term_in(word: u64) -> Term
    ensures { result ≡ term_in word }
{
    Term {
        rank: (word / (1 << 32)) as u32,
        coef: (word % (1 << 32)) as u32,
    }
}

/// Whether a word is that of an item.
fn is_item(word: u64) -> bool
    ensures { IsTrue result ↔ IsItem (item_in word) }
{
    if word < 1 << 32 {
        return word < MAX_GENERATORS;
    }
    let pair = word - (1 << 32);
    let (i, j) = (pair / (1 << 16), pair % (1 << 16));
    i < j && j < MAX_MONOMIALS
}

/// Whether a word is that of a reading.
fn is_reading(word: u64) -> bool
    ensures { IsTrue result ↔ IsReading (reading_in word) }
{
    word / (1 << 16) <= MAX_MONOMIALS && word % (1 << 16) <= MAX_MONOMIALS
}

/// Whether the words are those of readings.
fn are_readings(words: &[u64]) -> bool
    ensures { IsTrue result ↔ All (λ x. IsReading (reading_in x)) words.now }
{
    words.iter().all(|word| is_reading(*word))
}

/// Whether the words are those of terms whose ranks rise and are below `n`, with coefficients modulo `p` that aren't 0.
fn are_terms(words: &[u64], p: u32, n: u32) -> bool
    ensures { IsTrue result ↔ AreRising p n 0 (map term_in words.now) }
{
    let mut least = 0;
    for i in 0..words.len() {
        let term = term_in(words[i]);
        if term.rank < least || term.rank >= n || term.coef < 1 || term.coef >= p {
            return false;
        }
        least = term.rank + 1;
    }
    true
}

/// The words behind the first three.
fn behind_counts(words: &[u64]) -> &[u64]
    requires { 3 ≤ length words.now }
    ensures { result.now ≡ drop 3 words.now }
{
    &words[3..]
}

/// The words of readings, of which the second word has the number.
pub(crate) fn reading_words(words: &[u64]) -> &[u64]
    requires { 3 + get_or words.now 1 0 ≤ length words.now }
    ensures { result.now ≡ take (get_or words.now 1 0) (drop 3 words.now) }
{
    &behind_counts(words)[..words[1] as usize]
}

/// The words behind those of readings.
pub(crate) fn term_words(words: &[u64]) -> &[u64]
    requires { 3 + get_or words.now 1 0 ≤ length words.now }
    ensures { result.now ≡ drop (get_or words.now 1 0) (drop 3 words.now) }
{
    &behind_counts(words)[words[1] as usize..]
}

/// Whether the second word and the third are numbers of readings and of terms.
fn has_counts(words: &[u64], n: u32) -> bool
    ensures { IsTrue result ↔ HasCounts n words.now }
{
    if words.len() < 3 {
        return false;
    }
    let n = u64::from(n);
    let (reads, terms) = (words[1], words[2]);
    1 <= reads && reads <= n && 1 <= terms && terms <= n && words.len() as u64 == 3 + reads + terms
}

/// Whether the words pass what those of an entry modulo `p` in a ring with `n` monomials do.
pub(crate) fn are_passed(words: &[u64], p: u32, n: u32) -> bool
    ensures { IsTrue result ↔ ArePassed p n words.now }
{
    if !has_counts(words, n) {
        return false;
    }
    let terms = term_words(words);
    is_item(words[0])
        && are_readings(reading_words(words))
        && term_in(terms[0]).coef == 1
        && are_terms(terms, p, n)
}
