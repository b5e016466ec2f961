//! Lists of an entry: with room for one member, then with two of them, and empty again. The words of an entry, back and forth.

ghost use Rattle.std.specs.Prelude.{◌≡◌, length, IfOk};

use crate::build::field;
use entry_code::{
    Entries, Entry, Item, Reading, Reads, Term, Terms, read_words, word_at, word_count,
};
use std::alloc::{AllocError, Global};
use std::test::Fail;

/// Two readings. The first push takes the free place, and the second one makes more of them.
fn two_readings(alloc: Global) -> Result<Reads, AllocError>
    ensures { IfOk result (λ r. length r.list ≡ 2) }
{
    let mut reads = Reads::room(alloc, 1)?;
    reads.push(Reading {
        known: 0,
        corner: 15,
    })?;
    reads.push(Reading {
        known: 2,
        corner: 5,
    })?;
    Ok(reads)
}

/// Two terms, likewise.
fn two_terms(alloc: Global) -> Result<Terms, AllocError>
    ensures { IfOk result (λ t. length t.list ≡ 2) }
{
    let mut terms = Terms::room(alloc, 1)?;
    terms.push(Term { rank: 15, coef: 1 })?;
    terms.push(Term { rank: 5, coef: 3 })?;
    Ok(terms)
}

/// An entry without readings and terms, and one of a pair with one term.
fn two_entries(alloc: Global) -> Result<Entries, AllocError>
    ensures { IfOk result (λ e. length e ≡ 2) }
{
    let mut entries = Entries::new(alloc);
    entries.push(Entry::room(alloc, 15)?)?;
    let mut made = Entry::room(alloc, 15)?;
    made.item = Item::Pair(0, 1);
    made.terms.push(Term { rank: 3, coef: 1 })?;
    entries.push(made)?;
    Ok(entries)
}

#[test]
fn readings(rt: HostRuntime) -> Result<(), Fail> {
    let mut reads = two_readings(rt.alloc())?;
    let read = [reads.get(0).corner, reads.get(1).known];
    reads.pop();
    let one = reads.len();
    reads.clear();
    assert!(rt; (read, one, reads.len()) == ([15, 2], 1, 0));
    Ok(())
}

#[test]
fn terms(rt: HostRuntime) -> Result<(), Fail> {
    let mut terms = two_terms(rt.alloc())?;
    let stored = [terms.get(0).rank, terms.get(1).coef];
    terms.pop();
    let one = terms.len();
    terms.clear();
    assert!(rt; (stored, one, terms.len()) == ([15, 3], 1, 0));
    Ok(())
}

#[test]
fn entries(rt: HostRuntime) -> Result<(), Fail> {
    let entries = two_entries(rt.alloc())?;
    let (first, second) = (entries.get(0), entries.get(1));
    assert!(rt; [first.item, second.item] == [Item::Generator(0), Item::Pair(0, 1)]);
    assert!(rt; [first.reads.len(), first.terms.len(), second.terms.len()] == [0, 0, 1]);
    Ok(())
}

/// The words of a worked entry: the generator 1, three readings (1, 15), and the monomial of rank 9.
const WORDS: [u64; 7] = [1, 3, 1, 65551, 65551, 65551, 38654705665];

#[test]
fn words_of_an_entry(rt: HostRuntime) -> Result<(), Fail> {
    let mut entry = Entry::room(rt.alloc(), 15)?;
    assert!(rt; read_words(&WORDS, &field(32003)?, 15, &mut entry));
    assert!(rt; entry.reads.len() == 3 && entry.terms.len() == 1);
    let (reading, term) = (entry.reads.get(2), entry.terms.get(0));
    assert!(rt; (reading.known, reading.corner, term.rank, term.coef) == (1, 15, 9, 1));
    assert!(rt; word_count(&entry) == 7);
    let same = word_at(&entry, 0) == WORDS[0] && word_at(&entry, 2) == WORDS[2];
    assert!(rt; same && word_at(&entry, 5) == WORDS[5] && word_at(&entry, 6) == WORDS[6]);
    Ok(())
}

#[test]
fn words_of_a_pair(rt: HostRuntime) -> Result<(), Fail> {
    let mut entry = Entry::room(rt.alloc(), 15)?;
    let words = [4294967297, 1, 1, 65551, 38654705665];
    assert!(rt; read_words(&words, &field(32003)?, 15, &mut entry));
    assert!(rt; entry.item == Item::Pair(0, 1));
    Ok(())
}

// a reading more than there are words, a word too many, and ranks that fall
const NO_SPELLING: &[&[u64]] = &[
    &[1, 4, 1, 65551, 65551, 65551, 38654705665],
    &[1, 3, 1, 65551, 65551, 65551, 38654705665, 0],
    &[1, 1, 2, 65551, 38654705665, 12884901890],
];

/// Whether these are the words of an entry modulo 32003, where there are 15 monomials.
fn is_spelling(alloc: Global, words: &[u64]) -> Result<bool, Fail> {
    let mut entry = Entry::room(alloc, 15)?;
    Ok(read_words(words, &field(32003)?, 15, &mut entry))
}

#[test]
fn words_that_are_no_spelling(rt: HostRuntime) -> Result<(), Fail> {
    for words in NO_SPELLING {
        assert!(rt; !is_spelling(rt.alloc(), words)?);
    }
    assert!(rt; is_spelling(rt.alloc(), &WORDS)?);
    Ok(())
}
