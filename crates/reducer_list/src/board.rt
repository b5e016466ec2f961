//! The board, and its tickets and corner.

ghost use Rattle.std.specs.Prelude.{◌≡◌, ℕ, ◌≤◌, false, true, length};
ghost use Rattle.local_order.specs.Limits.{max_monomials};
ghost use Rattle.sparse_poly.specs.Shape.{shape_of};
ghost use Rattle.mora_law.specs.Entries.{corner as corner_of};
ghost use Rattle.mora_law.specs.Tickets.{total as ticket_total};
ghost use Rattle.run_core.specs.Hand.{reads_of};
ghost use Rattle.reducer_list.specs.View.{is_busy, top};
ghost use Rattle.reducer_list.specs.Steps.{AreAbove, cornered};
ghost use Rattle.reducer_list.specs.Calls.{IsAt, HasClaimed};

use crate::answers::Claim;
use crate::rule::{Claims, Corners, Key, Knowing, Ruled};
use crate::seat::BoardSeat;
use atomic_table::Table;
use entry_code::Entry;
use mono_rank::RankTable;
use run_core::laws;
use sparse_poly::Problem;
use std::alloc::Global;
use std::marker::Model;

/// A board, which threads share by reference. A contract sees its table and its problem with the number of workers.
#[derive(Drop)]
pub struct SharedBoard {
    pub(crate) table: Table<Entry, Knowing, Key, Ruled, Global>,
    pub(crate) problem: Problem,
    pub(crate) ranks: RankTable,
    pub(crate) generators: u32,
    pub(crate) top: u32,
    pub(crate) workers: u32,
}

impl Model for SharedBoard {
    ghost use Rattle.std.specs.Prelude.{◌≡◌, ◌≤◌, length};
    ghost use Rattle.local_order.specs.Limits.{max_monomials};
    ghost use Rattle.sparse_poly.specs.Shape.{shape_of};
    ghost use Rattle.run_core.specs.State.{count_of};
    ghost use Rattle.reducer_list.specs.View.{Board, max_workers};
    ghost use Rattle.reducer_list.specs.Rule.{table_words};

    ghost Value = { Board };

    ghost view = { λ b. record { table = b.table.shared.table_id; setting = record { problem = b.problem; workers = b.workers } } };

    ghost invariant = { λ b. (b.table.shared.key.0.value ≡ b.problem) × (b.table.shared.key.1 ≡ b.workers) × (b.ranks ≡ shape_of b.problem)
        × (b.generators ≡ length b.problem.gens) × (b.top ≡ count_of b.problem) × (b.top ≤ max_monomials) × (b.workers ≤ max_workers)
        × (b.table.shared.table_id.words ≡ table_words (record { problem = b.problem; workers = b.workers })) };
}

/// How many tickets so many generators and entries have.
fn total(generators: u32, entries: u32) -> u64
    ensures { result ≡ ticket_total generators entries }
{
    let n = u64::from(entries);
    u64::from(generators) + n * n.saturating_sub(1) / 2
}

impl SharedBoard {
    /// The problem that the board is for.
    pub fn problem(&self) -> &Problem
        ensures { result.now ≡ self.now.setting.problem }
    {
        &self.problem
    }

    /// The ranks of the monomials of the problem.
    pub fn table(&self) -> &RankTable
        ensures { result.now ≡ shape_of self.now.setting.problem }
    {
        &self.ranks
    }

    /// Tries to take the next ticket.
    pub fn claim(&self, seat: &mut BoardSeat) -> Claim
        requires board { IsAt self.now seat.old }
        requires one { length seat.old.view.seat.numbers ≡ 1 }
        requires shut { is_busy seat.old.view ≡ false }
        ensures board { IsAt self.now seat.new }
        ensures call { HasClaimed seat.old.view result seat.new.view }
    {
        if seat.seen >= total(self.generators, seat.known) {
            return Claim::NoneKnown;
        }
        laws::keeps_sound();
        let seen = seat.seen;
        let found = self
            .table
            .shared
            .compare_exchange::<Claims>(&mut seat.seat, 1, seen, seen + 1);
        if found == seen {
            seat.seen = seen + 1;
            Claim::Claimed(found)
        } else {
            seat.seen = found;
            Claim::Later(found)
        }
    }

    /// Takes the lesser of the corner word and the own corner, which the word becomes. The hand has one more reading, in place of its last
    /// one where that gave Stuck. The corner is at most that of each reading before.
    pub fn corner(&self, seat: &mut BoardSeat, own: u32) -> u32
        requires board { IsAt self.now seat.old }
        requires hand { is_busy seat.old.view ≡ true }
        requires own { own ≡ corner_of seat.old.view.setting.problem seat.old.view.list }
        ensures board { IsAt self.now seat.new }
        ensures least { result ≤ own }
        ensures above { AreAbove result (reads_of seat.old.view.seat.hand) }
        ensures read { seat.new.view ≡ cornered result seat.old.view }
    {
        laws::keeps_sound();
        let found = self
            .table
            .shared
            .fetch_min::<Corners>(&mut seat.seat, 0, u64::from(own));
        if found < u64::from(own) {
            found as u32
        } else {
            own
        }
    }
}
