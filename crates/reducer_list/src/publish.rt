//! How an entry is put behind the list.

ghost use Rattle.std.specs.Prelude.{◌≡◌, ◌≢◌, true, ◌+◌, ◌<◌, ◌≤◌, length, MatchBool};
ghost use Rattle.local_order.specs.Limits.{max_monomials};
ghost use Rattle.entry_code.specs.Entry.{entry_of};
ghost use Rattle.entry_code.specs.Words.{words_of};
ghost use Rattle.reducer_list.specs.View.{top};
ghost use Rattle.reducer_list.specs.Steps.{FitsChunk, IsStuck, made, stored, posted};
ghost use Rattle.mora_law.specs.Legal.{Legal};
ghost use Rattle.reducer_list.specs.declared.answers.Publish.TheVariants.{Longer};
ghost use Rattle.reducer_list.specs.Calls.{IsAt, HasSeenTaken, HasPublished};

use crate::answers::Publish;
use crate::board::SharedBoard;
use crate::rule::{Posts, Puts, Rooms};
use crate::seat::BoardSeat;
use entry_code::{Entry, word_at, word_count};
use run_core::laws;

impl SharedBoard {
    /// Shows that what a stuck hand makes fits into a chunk.
    fn see_room(&self, seat: &mut BoardSeat)
        requires board { IsAt self.now seat.old }
        requires stuck { IsStuck seat.old.view }
        ensures board { IsAt self.now seat.new }
        ensures same { seat.new.view ≡ seat.old.view }
        ensures room { FitsChunk seat.old.view.setting (made seat.old.view) }
        ensures small { top seat.old.view.setting ≤ max_monomials }
    {
        laws::stuck_hands_have_room();
        self.table.shared.load::<Rooms>(&mut seat.seat, 0);
    }

    /// Stores one word in the seat's first chunk.
    fn put_word(&self, seat: &mut BoardSeat, k: u32, x: u64)
        requires board { IsAt self.now seat.old }
        requires next { k ≤ length seat.old.view.draft }
        requires room { k < top seat.old.view.setting + 8 }
        ensures board { IsAt self.now seat.new }
        ensures stored { seat.new.view ≡ stored k x seat.old.view }
    {
        let n = self.top as usize;
        let word = n + 3 + seat.chunk as usize * (n + 8) + k as usize;
        self.table.shared.store::<Puts>(&mut seat.seat, word, x);
    }

    /// Tries the head behind what is known, once the words of the hand's entry stand in the seat's chunk.
    fn post(&self, seat: &mut BoardSeat) -> bool
        requires board { IsAt self.now seat.old }
        requires stuck { IsStuck seat.old.view }
        requires draft { seat.old.view.draft ≡ words_of (made seat.old.view) }
        ensures board { IsAt self.now seat.new }
        ensures done { MatchBool result (seat.new.view ≡ posted seat.old.view) (HasSeenTaken seat.old.view seat.new.view) }
        ensures legal { result ≡ true → Legal seat.old.view.setting.problem (posted seat.old.view).list }
    {
        laws::keeps_sound();
        laws::publishes_with_an_open_hand();
        laws::drafts_have_room();
        let head = 2 + seat.known as usize;
        let chunk = seat.chunk;
        let found = self
            .table
            .shared
            .compare_exchange::<Posts>(&mut seat.seat, head, 0, u64::from(chunk) + 1);
        if found == 0 {
            seat.chunk = self.workers + seat.known;
            seat.known += 1;
        }
        found == 0
    }

    /// Puts the entry that the hand's run makes behind the list, unless the list is longer than the seat knows.
    pub fn publish(&self, seat: &mut BoardSeat, draft: &Entry) -> Publish
        requires board { IsAt self.now seat.old }
        requires stuck { IsStuck seat.old.view }
        requires draft { entry_of draft.now ≡ made seat.old.view }
        ensures board { IsAt self.now seat.new }
        ensures done { HasPublished seat.old.view result seat.new.view }
        ensures legal { result ≢ Longer → Legal seat.new.view.setting.problem seat.new.view.list }
    {
        self.see_room(seat);
        let count = word_count(draft);
        for k in 0..count {
            let word = word_at(draft, k);
            self.put_word(seat, k, word);
        }
        let place = seat.known;
        if self.post(seat) {
            Publish::Published(place)
        } else {
            Publish::Longer
        }
    }
}
