//! How a seat learns what others published, and reads again what it knows.

ghost use Rattle.std.specs.Prelude.{◌≡◌, ◌≢◌, ◌+◌, ◌<◌, ◌≤◌, [], length, take, get_or, slice_index, None};
ghost use Rattle.local_order.specs.Limits.{max_monomials};
ghost use Rattle.entry_code.specs.Entry.{Entry as EntryRecord, HasRoom, entry_at, entry_of};
ghost use Rattle.mora_law.specs.Legal.{Legal};
ghost use Rattle.reducer_list.specs.View.{max_workers, top};
ghost use Rattle.reducer_list.specs.Steps.{AreAllButLast, IsEntryOf, done_reading, found_taken, learnt_view, place_read, reads_on, sought};
ghost use Rattle.reducer_list.specs.Calls.{HasLooked, HasSeen, IsAt, IsReading};
ghost use Rattle.reducer_list.specs.declared.answers.Look.TheVariants.{Nothing};

use crate::answers::Look;
use crate::board::SharedBoard;
use crate::rule::{Learns, Looks, Recalls, Seeks, Takes};
use crate::seat::BoardSeat;
use entry_code::{Entry, read_words};
use run_core::laws;

impl SharedBoard {
    /// Loads the head behind what is known.
    fn see_head(&self, seat: &mut BoardSeat) -> u64
        requires board { IsAt self.now seat.old }
        ensures board { IsAt self.now seat.new }
        ensures small { result ≤ max_monomials + max_workers }
        ensures empty { result ≡ 0 → HasLooked seat.old.view seat.new.view }
        ensures taken { result ≢ 0 → (seat.new.view ≡ found_taken result seat.old.view)
            × (result ≤ top self.now.setting + self.now.setting.workers) × (seat.old.view.seat.known < top self.now.setting) }
    {
        laws::keeps_sound();
        laws::last_idle();
        let head = 2 + seat.known as usize;
        self.table.shared.load::<Looks>(&mut seat.seat, head)
    }

    /// Loads the head of an entry that is known.
    fn seek_head(&self, seat: &mut BoardSeat, i: u32) -> u64
        requires board { IsAt self.now seat.old }
        requires place { i < seat.old.view.seat.known }
        ensures board { IsAt self.now seat.new }
        ensures small { result ≤ max_monomials + max_workers }
        ensures sought { seat.new.view ≡ sought i result seat.old.view }
        ensures taken { 0 < result × result ≤ top self.now.setting + self.now.setting.workers }
    {
        let head = 2 + i as usize;
        self.table.shared.load::<Seeks>(&mut seat.seat, head)
    }

    /// Loads word k of the body that is being read.
    fn take_word(&self, seat: &mut BoardSeat, chunk: u32, k: usize, words: &mut [u64])
        requires board { IsAt self.now seat.old }
        requires chunk { chunk < top self.now.setting + self.now.setting.workers }
        requires body { k < top self.now.setting + 4 }
        requires room { k < length words.old }
        requires reading { IsReading chunk (take k words.old) seat.old.view }
        ensures board { IsAt self.now seat.new }
        ensures len { length words.new ≡ length words.old }
        ensures before { take k words.new ≡ take k words.old }
        ensures read { seat.new.view ≡ reads_on chunk (take (k + 1) words.new) seat.old.view }
        ensures count { k ≡ 2 → AreAllButLast self.now.setting (2 + get_or words.new 1 0 + get_or words.new 2 0) words.new }
    {
        let _problem = self.problem.n();
        let n = self.top as usize;
        let word = n + 3 + chunk as usize * (n + 8) + k;
        let found = self.table.shared.load::<Takes>(&mut seat.seat, word);
        words[k] = found;
    }

    /// Loads all words but the last of the body that is being read, and tells how many they are.
    fn take_words(&self, seat: &mut BoardSeat, chunk: u32, words: &mut [u64]) -> usize
        requires board { IsAt self.now seat.old }
        requires chunk { chunk < top self.now.setting + self.now.setting.workers }
        requires room { top self.now.setting + 4 ≤ length words.old }
        requires reading { IsReading chunk [] seat.old.view }
        ensures board { IsAt self.now seat.new }
        ensures len { length words.new ≡ length words.old }
        ensures read { seat.new.view ≡ reads_on chunk (take result words.new) seat.old.view }
        ensures last { AreAllButLast self.now.setting result words.new }
    {
        self.take_word(seat, chunk, 0, words);
        self.take_word(seat, chunk, 1, words);
        self.take_word(seat, chunk, 2, words);
        let last = 2 + words[1] as usize + words[2] as usize;
        for k in 3..last {
            self.take_word(seat, chunk, k, words);
        }
        last
    }

    /// Loads the last word of the body of the entry behind what is known, which is known from then on.
    fn learn_word(&self, seat: &mut BoardSeat, chunk: u32, k: usize, words: &mut [u64])
        requires board { IsAt self.now seat.old }
        requires chunk { chunk < top self.now.setting + self.now.setting.workers }
        requires body { k < top self.now.setting + 4 }
        requires room { k < length words.old }
        requires known { seat.old.view.seat.known < top self.now.setting }
        requires reading { IsReading chunk (take k words.old) seat.old.view }
        requires place { place_read seat.old.view.reading ≡ seat.old.view.seat.known }
        requires last { AreAllButLast self.now.setting k words.old }
        ensures board { IsAt self.now seat.new }
        ensures len { length words.new ≡ length words.old }
        ensures learnt { (e : EntryRecord) × IsEntryOf self.now.setting (take (k + 1) words.new) e × (seat.new.view ≡ learnt_view e seat.old.view)
            × Legal self.now.setting.problem (learnt_view e seat.old.view).list }
    {
        laws::keeps_sound();
        let _problem = self.problem.n();
        let n = self.top as usize;
        let word = n + 3 + chunk as usize * (n + 8) + k;
        let found = self.table.shared.load::<Learns>(&mut seat.seat, word);
        words[k] = found;
        seat.known += 1;
    }

    /// Loads the last word of the body of an entry that is known.
    fn recall_word(&self, seat: &mut BoardSeat, chunk: u32, k: usize, words: &mut [u64])
        requires board { IsAt self.now seat.old }
        requires chunk { chunk < top self.now.setting + self.now.setting.workers }
        requires body { k < top self.now.setting + 4 }
        requires room { k < length words.old }
        requires reading { IsReading chunk (take k words.old) seat.old.view }
        requires place { place_read seat.old.view.reading < seat.old.view.seat.known }
        requires last { AreAllButLast self.now.setting k words.old }
        ensures board { IsAt self.now seat.new }
        ensures len { length words.new ≡ length words.old }
        ensures same { seat.new.view ≡ done_reading seat.old.view }
        ensures recalled { IsEntryOf self.now.setting (take (k + 1) words.new) (entry_at seat.old.view.list (place_read seat.old.view.reading)) }
    {
        let _problem = self.problem.n();
        let n = self.top as usize;
        let word = n + 3 + chunk as usize * (n + 8) + k;
        let found = self.table.shared.load::<Recalls>(&mut seat.seat, word);
        words[k] = found;
    }

    /// Becomes the entry of these words, which are those of one.
    fn put_entry(&self, words: &[u64], room: &mut Entry)
        requires spelled { (e : EntryRecord) × IsEntryOf self.now.setting words.now e }
        requires room { HasRoom (top self.now.setting) room.old }
        ensures entry { IsEntryOf self.now.setting words.now (entry_of room.new) }
        ensures only { (e : EntryRecord) → IsEntryOf self.now.setting words.now e → e ≡ entry_of room.new }
        ensures room { HasRoom (top self.now.setting) room.new }
    {
        if !read_words(words, self.problem.field(), self.top, room) {
            unreachable!();
        }
    }

    /// Learns the next entry of the list, which `room` then holds, where there is one. What `words` holds afterwards isn't said.
    ///
    /// `Nothing`: the head behind what the seat knows was empty at this call's load, by which `looks` rose by one; `room` is as before. Where
    /// the seat has no open hand and has seen all tickets of what it knows, it has the idle mark from then on.
    pub fn look(&self, seat: &mut BoardSeat, words: &mut [u64], room: &mut Entry) -> Look
        requires board { IsAt self.now seat.old }
        requires words { top self.now.setting + 4 ≤ length words.old }
        requires room { HasRoom (top self.now.setting) room.old }
        ensures board { IsAt self.now seat.new }
        ensures len { length words.new ≡ length words.old }
        ensures room { HasRoom (top self.now.setting) room.new }
        ensures seen { HasSeen seat.old.view (entry_of room.new) result seat.new.view }
        ensures unchanged { result ≡ Nothing → room.new ≡ room.old }
        ensures legal { result ≢ Nothing → Legal self.now.setting.problem seat.new.view.list }
    {
        let found = self.see_head(seat);
        if found == 0 {
            return Look::Nothing;
        }
        let place = seat.known;
        let chunk = (found - 1) as u32;
        let last = self.take_words(seat, chunk, words);
        self.learn_word(seat, chunk, last, words);
        self.put_entry(&words[..last + 1], room);
        Look::Learnt(place)
    }

    /// Reads a published entry that the seat knows again into `room`. What contracts see of the seat is as before; nothing is being read.
    pub fn recall(&self, seat: &mut BoardSeat, i: u32, words: &mut [u64], room: &mut Entry)
        requires board { IsAt self.now seat.old }
        requires place { i < seat.old.view.seat.known }
        requires words { top self.now.setting + 4 ≤ length words.old }
        requires room { HasRoom (top self.now.setting) room.old }
        ensures board { IsAt self.now seat.new }
        ensures len { length words.new ≡ length words.old }
        ensures room { HasRoom (top self.now.setting) room.new }
        ensures entry { entry_of room.new ≡ entry_at seat.old.view.list i }
        ensures same { seat.new.view ≡ done_reading seat.old.view }
        ensures before { seat.old.view.reading ≡ None → seat.new.view ≡ seat.old.view }
    {
        let found = self.seek_head(seat, i);
        let chunk = (found - 1) as u32;
        let last = self.take_words(seat, chunk, words);
        self.recall_word(seat, chunk, last, words);
        self.put_entry(&words[..last + 1], room);
    }
}
