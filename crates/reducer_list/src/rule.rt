//! The rule of the table, and what each kind of step tells.

use atomic_table::{Join, Play, Split, TableRule};
use entry_code::Entry;
use sparse_poly::Problem;
use std::marker::Model;
use std::snapshot::Snapshot;

/// What a board is for: its problem, and the number of its workers.
pub(crate) type Key = (Snapshot<Problem>, u32);

/// What a seat knows. No value of it is made.
pub struct Knowing {
    unmade: u64,
}

impl Model for Knowing {
    ghost use Rattle.std.specs.Prelude.{[]};
    ghost use Rattle.reducer_list.specs.View.{View, one_seat};

    ghost Value = { View };

    ghost view = { λ _. one_seat (record { problem = record { p = 0; n = 0; d = 0; gens = [] }; workers = 0 }) };
}

/// The rule.
pub struct Ruled;

impl TableRule<Entry, Knowing, Key> for Ruled {
    ghost use Rattle.reducer_list.specs.View.{one_seat};
    ghost use Rattle.reducer_list.specs.Rule.{Kept};

    ghost holds = { λ k. Kept (record { problem = k.0.value; workers = k.1 }) };

    ghost first = { λ k. one_seat (record { problem = k.0.value; workers = k.1 }) };
}

/// The ticket number is tried.
pub(crate) struct Claims;

impl Play<Entry, Knowing> for Claims {
    ghost use Rattle.reducer_list.specs.Steps.{Claimed};

    ghost then = { Claimed };
}

/// The corner word is lessened.
pub(crate) struct Corners;

impl Play<Entry, Knowing> for Corners {
    ghost use Rattle.reducer_list.specs.Steps.{Cornered};

    ghost then = { Cornered };
}

/// What the rule says of a seat is told.
pub(crate) struct Settles;

impl Play<Entry, Knowing> for Settles {
    ghost use Rattle.reducer_list.specs.Steps.{Settled};

    ghost then = { Settled };
}

/// It is told that a chunk has room for what a stuck hand makes.
pub(crate) struct Rooms;

impl Play<Entry, Knowing> for Rooms {
    ghost use Rattle.reducer_list.specs.Steps.{Roomy};

    ghost then = { Roomy };
}

/// A word is stored in the own chunk.
pub(crate) struct Puts;

impl Play<Entry, Knowing> for Puts {
    ghost use Rattle.reducer_list.specs.Steps.{Stored};

    ghost then = { Stored };
}

/// The head behind what is known is tried.
pub(crate) struct Posts;

impl Play<Entry, Knowing> for Posts {
    ghost use Rattle.reducer_list.specs.Steps.{Posted};

    ghost then = { Posted };
}

/// The head behind what is known is loaded.
pub(crate) struct Looks;

impl Play<Entry, Knowing> for Looks {
    ghost use Rattle.reducer_list.specs.Steps.{Looked};

    ghost then = { Looked };
}

/// The head of an entry that is known is loaded.
pub(crate) struct Seeks;

impl Play<Entry, Knowing> for Seeks {
    ghost use Rattle.reducer_list.specs.Steps.{Sought};

    ghost then = { Sought };
}

/// A word of a body is loaded.
pub(crate) struct Takes;

impl Play<Entry, Knowing> for Takes {
    ghost use Rattle.reducer_list.specs.Steps.{ReadWord};

    ghost then = { ReadWord };
}

/// The last word of the entry behind what is known is loaded.
pub(crate) struct Learns;

impl Play<Entry, Knowing> for Learns {
    ghost use Rattle.reducer_list.specs.Steps.{LearntWord};

    ghost then = { LearntWord };
}

/// The last word of an entry that is known is loaded.
pub(crate) struct Recalls;

impl Play<Entry, Knowing> for Recalls {
    ghost use Rattle.reducer_list.specs.Steps.{RecalledWord};

    ghost then = { RecalledWord };
}

/// A seat is made.
pub(crate) struct Halves;

impl Split<Knowing> for Halves {
    ghost use Rattle.reducer_list.specs.Steps.{left_half, right_half};

    ghost left = { left_half };

    ghost right = { right_half };
}

/// A seat is joined.
pub(crate) struct Both;

impl Join<Knowing> for Both {
    ghost use Rattle.reducer_list.specs.Steps.{both, spent_view};

    ghost both = { both };

    ghost spent = { spent_view };
}
