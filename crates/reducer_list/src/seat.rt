//! A seat at the board.

ghost use Rattle.std.specs.Prelude.{◌≡◌};

use crate::rule::Knowing;
use atomic_table::Seat;
use entry_code::Entry;
use std::marker::Model;

/// The most workers that a board can have.
pub const MAX_WORKERS: usize = 16;

/// A seat, with what its thread knows. It has one worker number or more, each with a chunk of the table.
#[derive(Drop)]
pub struct BoardSeat {
    pub(crate) seat: Seat<Entry, Knowing>,
    pub(crate) known: u32,
    pub(crate) seen: u64,
    pub(crate) chunk: u32,
    pub(crate) others: usize,
    pub(crate) rest: [u32; MAX_WORKERS],
}

impl Model for BoardSeat {
    ghost use Rattle.std.specs.Prelude.{◌≡◌, ◌+◌, ◌<◌, ◌≤◌, [], ◌∷◌, take, length};
    ghost use Rattle.run_core.specs.State.{highest};
    ghost use Rattle.reducer_list.specs.View.{Sitting, max_workers, top};

    ghost Value = { Sitting };

    ghost view = { λ s. record { table = s.seat.table_id; view = s.seat.me.0 } };

    ghost invariant = { λ s. (s.known ≡ s.seat.me.0.seat.known) × (s.seen ≡ s.seat.me.0.seat.seen)
        × (s.seat.me.0.chunks ≡ s.chunk ∷ take s.others s.rest) × (s.others < max_workers)
        × (length s.seat.me.0.chunks ≡ length s.seat.me.0.seat.numbers) × (s.seat.me.1 ≡ [])
        × (highest s.seat.me.0.chunks < top s.seat.me.0.setting + s.seat.me.0.setting.workers)
        × (s.seat.me.0.seat.known ≤ top s.seat.me.0.setting) };
}

impl BoardSeat {
    /// How many entries it knows.
    pub fn known(&self) -> u32
        ensures { result ≡ self.now.view.seat.known }
    {
        self.known
    }
}
