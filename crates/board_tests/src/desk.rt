//! What a seat reads entries with, and how entries are told apart.

ghost use Rattle.std.specs.Prelude.{◌≡◌, ◌<◌, ◌≤◌, [], ◌∷◌, vec_len, true, IfOk};
ghost use Rattle.entry_code.specs.declared.item.Item.TheVariants.{Generator};
ghost use Rattle.entry_code.specs.Entry.{entry_of, entry_at};
ghost use Rattle.mora_law.specs.Examples.{term as term_of, reading as reading_of};
ghost use Rattle.reducer_list.specs.Calls.{IsAt, HasSeen};
ghost use Rattle.board_tests.specs.Rows.{HasLearnt, IsFor};

use entry_code::{Entry, Item, Term};
use reducer_list::{BoardSeat, Look, SharedBoard};
use std::alloc::{AllocError, Global};

/// Room for the words of an entry, and for an entry.
#[derive(Drop)]
pub struct Desk {
    pub words: Vec<u64>,
    pub room: Entry,
}

/// So many words.
fn some_words(alloc: Global, n: usize) -> Result<Vec<u64>, AllocError>
    ensures { IfOk result (λ v. vec_len v ≡ n) }
{
    Vec::from_elem(alloc, 0u64, n)
}

impl Desk {
    /// An empty one for a board.
    pub fn new(alloc: Global, board: &SharedBoard) -> Result<Desk, AllocError>
        ensures { IfOk result (λ d. IsFor board.now d) }
    {
        let n = board.table().count();
        let words = some_words(alloc, n as usize + 4)?;
        let room = Entry::room(alloc, n)?;
        Ok(Desk { words, room })
    }

    /// Learns the next entry.
    pub fn look(&mut self, board: &SharedBoard, seat: &mut BoardSeat) -> Look
        requires board { IsAt board.now seat.old }
        requires desk { IsFor board.now self.old }
        ensures board { IsAt board.now seat.new }
        ensures desk { IsFor board.now self.new }
        ensures seen { HasSeen seat.old.view (entry_of self.new.room) result seat.new.view }
    {
        board.look(seat, self.words.as_mut_slice(), &mut self.room)
    }

    /// Learns the next entry, and tells whether it stands at this place.
    pub fn learn(&mut self, board: &SharedBoard, seat: &mut BoardSeat, place: u32) -> bool
        requires board { IsAt board.now seat.old }
        requires desk { IsFor board.now self.old }
        ensures board { IsAt board.now seat.new }
        ensures desk { IsFor board.now self.new }
        ensures learnt { result ≡ true → HasLearnt seat.old.view (entry_of self.new.room) seat.new.view }
    {
        match self.look(board, seat) {
            Look::Nothing => false,
            Look::Learnt(i) => i == place,
        }
    }

    /// Reads an entry again.
    pub fn recall(&mut self, board: &SharedBoard, seat: &mut BoardSeat, i: u32)
        requires board { IsAt board.now seat.old }
        requires desk { IsFor board.now self.old }
        requires place { i < seat.old.view.seat.known }
        ensures board { IsAt board.now seat.new }
        ensures desk { IsFor board.now self.new }
        ensures same { seat.new.view ≡ record seat.old.view { reading = seat.new.view.reading } }
        ensures entry { entry_of self.new.room ≡ entry_at seat.old.view.list i }
    {
        board.recall(seat, i, self.words.as_mut_slice(), &mut self.room);
    }
}

/// Whether the item of this entry is that generator.
pub fn is_of_generator(entry: &Entry, number: u32) -> bool
    ensures { result ≡ true → entry.now.item ≡ Generator number }
{
    match entry.item {
        Item::Generator(g) => g == number,
        Item::Pair(_, _) => false,
    }
}

/// Whether the entry has this one reading.
pub fn has_reading(entry: &Entry, known: u32, corner: u32) -> bool
    ensures { result ≡ true → entry.now.reads.list ≡ reading_of known corner ∷ [] }
{
    if entry.reads.len() != 1 {
        return false;
    }
    let reading = entry.reads.get(0);
    if reading.known != known {
        return false;
    }
    if reading.corner != corner {
        return false;
    }
    true
}

/// Whether the term has this rank and this coefficient.
pub fn is_term(term: Term, rank: u32, coef: u32) -> bool
    ensures { result ≡ true → term ≡ term_of rank coef }
{
    if term.rank != rank {
        return false;
    }
    if term.coef != coef {
        return false;
    }
    true
}

/// Whether the entry is this one term.
pub fn has_term(entry: &Entry, rank: u32) -> bool
    ensures { result ≡ true → entry.now.terms.list ≡ term_of rank 1 ∷ [] }
{
    if entry.terms.len() != 1 {
        return false;
    }
    let term = entry.terms.get(0);
    is_term(term, rank, 1)
}
