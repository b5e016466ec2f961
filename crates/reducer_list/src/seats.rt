//! How seats are made and joined.

ghost use Rattle.std.specs.Prelude.{◌≡◌, ◌+◌, ◌<◌, ◌≤◌, ◌∷◌, ◌++◌, take, false, length};
ghost use Rattle.reducer_list.specs.View.{is_busy, max_workers, Begins};
ghost use Rattle.reducer_list.specs.Steps.{left_half, right_half, both, LastIdle};
ghost use Rattle.reducer_list.specs.Calls.{IsAt};

use crate::board::SharedBoard;
use crate::rule::{Both, Halves, Settles};
use crate::seat::{BoardSeat, MAX_WORKERS};
use run_core::laws;

/// Puts a chunk and so many more behind the first `n`.
fn append(rest: &mut [u32; MAX_WORKERS], n: usize, chunk: u32, more: &[u32; MAX_WORKERS], m: usize)
    requires { n + 1 + m ≤ max_workers }
    ensures { take (n + 1 + m) rest.new ≡ take n rest.old ++ chunk ∷ take m more.now }
{
    rest[n] = chunk;
    for i in 0..m {
        rest[n + 1 + i] = more[i];
    }
}

impl SharedBoard {
    /// A new seat with the greatest number, which knows and has seen what the seat knows and has seen. Its counts are 0.
    pub fn split(&self, seat: &mut BoardSeat) -> BoardSeat
        requires board { IsAt self.now seat.old }
        requires shut { is_busy seat.old.view ≡ false }
        requires many { 1 < length seat.old.view.seat.numbers }
        ensures board { IsAt self.now seat.new }
        ensures given_board { IsAt self.now result }
        ensures left { seat.new.view ≡ left_half seat.old.view }
        ensures right { result.view ≡ right_half seat.old.view }
    {
        laws::keeps_sound();
        let chunk = seat.rest[seat.others - 1];
        let given = self.table.shared.split_seat::<Halves>(&mut seat.seat);
        seat.others -= 1;
        BoardSeat {
            seat: given,
            known: seat.known,
            seen: seat.seen,
            chunk,
            others: 0,
            rest: [0; MAX_WORKERS],
        }
    }

    /// Takes in another seat: the numbers are united, known and seen are the greater ones, and each count is the sum of the two. The seat
    /// has no hand, and the idle mark where both had it. Both lists begin the list that it knows. A seat that is left with all numbers and the idle mark knows the whole list, which
    /// settles every ticket, and its counts are those of all.
    pub fn join(&self, seat: &mut BoardSeat, other: BoardSeat)
        requires board { IsAt self.now seat.old }
        requires other_board { IsAt self.now other }
        requires shut { is_busy seat.old.view ≡ false }
        requires other_shut { is_busy other.view ≡ false }
        ensures board { IsAt self.now seat.new }
        ensures both { seat.new.view ≡ both seat.old.view other.view }
        ensures begins { Begins seat.old.view.list seat.new.view.list × Begins other.view.list seat.new.view.list }
        ensures last { LastIdle seat.new.view }
    {
        laws::keeps_sound();
        laws::last_idle();
        let BoardSeat {
            seat: token,
            known,
            seen,
            chunk,
            others,
            rest,
        } = other;
        self.table.shared.join_seat::<Both>(&mut seat.seat, token);
        self.table.shared.load::<Settles>(&mut seat.seat, 0);
        seat.known = seat.known.max(known);
        seat.seen = seat.seen.max(seen);
        append(&mut seat.rest, seat.others, chunk, &rest, others);
        seat.others += 1 + others;
    }
}
