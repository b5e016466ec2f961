//! The words of an entry.

ghost use Rattle.std.specs.Prelude.{◌≡◌, ◌<◌, ◌≤◌, length, get_or};
ghost use Rattle.local_order.specs.Limits.{max_monomials};
ghost use Rattle.entry_code.specs.Entry.{entry_of};
ghost use Rattle.entry_code.specs.Words.{item_word, reading_word, term_word, words_of};

use crate::entry::Entry;
use crate::item::Item;
use crate::reading::Reading;
use crate::term::Term;

/// The word of an item.
fn item_word(item: Item) -> u64
    ensures { result ≡ item_word item }
{
    match item {
        Item::Generator(g) => u64::from(g),
        Item::Pair(i, j) => (1 << 32) + u64::from(i) * (1 << 16) + u64::from(j),
    }
}

/// The word of a reading.
fn reading_word(reading: Reading) -> u64
    ensures { result ≡ reading_word reading }
{
    u64::from(reading.known) * (1 << 16) + u64::from(reading.corner)
}

/// The word of a term.
fn term_word(term: Term) -> u64
    ensures { result ≡ term_word term }
{
    u64::from(term.rank) * (1 << 32) + u64::from(term.coef)
}

/// How many words an entry has.
pub fn word_count(entry: &Entry) -> u32
    requires reads { length entry.now.reads.list ≤ max_monomials }
    requires terms { length entry.now.terms.list ≤ max_monomials }
    ensures { result ≡ length (words_of (entry_of entry.now)) }
{
    3 + entry.reads.len() as u32 + entry.terms.len() as u32
}

/// The word of an entry at a place, the first being 0.
pub fn word_at(entry: &Entry, place: u32) -> u64
    requires reads { length entry.now.reads.list ≤ max_monomials }
    requires terms { length entry.now.terms.list ≤ max_monomials }
    requires place { place < length (words_of (entry_of entry.now)) }
    ensures { result ≡ get_or (words_of (entry_of entry.now)) place 0 }
{
    let reads = entry.reads.len();
    let place = place as usize;
    if place == 0 {
        item_word(entry.item)
    } else if place == 1 {
        reads as u64
    } else if place == 2 {
        entry.terms.len() as u64
    } else if place < 3 + reads {
        reading_word(entry.reads.get(place - 3))
    } else {
        term_word(entry.terms.get(place - 3 - reads))
    }
}
