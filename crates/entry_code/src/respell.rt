//! Entries from their words.

ghost use Rattle.std.specs.Prelude.{◌≡◌, ◌≤◌, true, false, map, length, All};
ghost use Rattle.entry_code.specs.Entry.{entry_of, HasRoom};
ghost use Rattle.entry_code.specs.Words.{IsReading, IsSpellable, IsSpelling, reading_in, term_in, words_of};

use crate::entry::Entry;
use crate::reads::Reads;
use crate::spelling::{are_passed, item_in, reading_in, reading_words, term_in, term_words};
use crate::terms::Terms;
use prime_field::Field;

/// Becomes the readings of these words. There is room for them.
fn put_readings(into: &mut Reads, words: &[u64])
    requires room { length words.now ≤ into.old.places }
    requires words { All (λ x. IsReading (reading_in x)) words.now }
    ensures list { into.new.list ≡ map reading_in words.now }
    ensures room { into.old.places ≤ into.new.places }
{
    into.clear();
    for i in 0..words.len() {
        into.push(reading_in(words[i])).unwrap();
    }
}

/// Becomes the terms of these words. There is room for them.
fn put_terms(into: &mut Terms, words: &[u64])
    requires room { length words.now ≤ into.old.places }
    ensures list { into.new.list ≡ map term_in words.now }
    ensures room { into.old.places ≤ into.new.places }
{
    into.clear();
    for i in 0..words.len() {
        into.push(term_in(words[i])).unwrap();
    }
}

/// Becomes the entry of these words, where they are those of one modulo the field's prime in a ring with so many monomials. Else it
/// stays as it was. There is room for it, and no memory is taken.
pub fn read_words(words: &[u64], field: &Field, n_ranks: u32, into: &mut Entry) -> bool
    requires room { HasRoom n_ranks into.old }
    ensures spelled { result ≡ true → IsSpellable field.now n_ranks (entry_of into.new) }
    ensures words { result ≡ true → words_of (entry_of into.new) ≡ words.now }
    ensures refused { result ≡ false → ¬ IsSpelling field.now n_ranks words.now }
    ensures unchanged { result ≡ false → into.new ≡ into.old }
    ensures room { HasRoom n_ranks into.new }
{
    if !are_passed(words, field.prime(), n_ranks) {
        return false;
    }
    into.item = item_in(words[0]);
    put_readings(&mut into.reads, reading_words(words));
    put_terms(&mut into.terms, term_words(words));
    true
}
