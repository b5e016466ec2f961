//! The steps of the example with three cubes, by a seat that is told what it sits at.

ghost use Rattle.std.specs.Prelude.{◌≡◌, ◌≤◌, [], ◌∷◌, Some, None, true, IfOk, OnOk};
ghost use Rattle.entry_code.specs.Entry.{entry_of};
ghost use Rattle.run_core.specs.Hand.{hand_of};
ghost use Rattle.reducer_list.specs.Calls.{IsAt};
ghost use Rattle.board_tests.specs.Rows.{IsFor, Sits, HasTaken, HasTried, cubes, made_cube, once_read};

use crate::build::three_cubes;
use crate::desk::{Desk, has_reading, has_term, is_of_generator};
use entry_code::{Entry, Item, Reading, Term};
use reducer_list::{BoardSeat, Claim, Publish, SharedBoard};
use std::alloc::Global;
use std::test::Fail;

/// A board for two workers, with the seat of each.
pub fn open(alloc: Global) -> Result<(SharedBoard, BoardSeat, BoardSeat), Fail>
    ensures problem { IfOk result (λ r. r.0.setting.problem ≡ cubes) }
    ensures first_board { IfOk result (λ r. IsAt r.0 r.1) }
    ensures second_board { IfOk result (λ r. IsAt r.0 r.2) }
    ensures first { IfOk result (λ r. Sits [] None r.1.view) }
    ensures second { IfOk result (λ r. Sits [] None r.2.view) }
{
    let problem = three_cubes(alloc)?;
    let (board, mut first) = SharedBoard::open(alloc, &problem, 2)?;
    let second = board.split(&mut first);
    Ok((board, first, second))
}

/// A claim by a seat that knows nothing yet.
pub fn claim(board: &SharedBoard, seat: &mut BoardSeat) -> Claim
    requires board { IsAt board.now seat.old }
    requires sits { Sits [] None seat.old.view }
    ensures board { IsAt board.now seat.new }
    ensures sits { HasTaken [] None result seat.new.view }
{
    board.claim(seat)
}

/// The first reading of ticket 0 or 1, which must be of the corner 21.
pub fn read(board: &SharedBoard, seat: &mut BoardSeat, ticket: u64) -> Result<(), Fail>
    requires problem { board.now.setting.problem ≡ cubes }
    requires board { IsAt board.now seat.old }
    requires sits { Sits [] (Some (hand_of ticket)) seat.old.view }
    requires ticket { ticket ≤ 1 }
    ensures board { IsAt board.now seat.new }
    ensures sits { OnOk result (Sits [] (Some (once_read ticket 0)) seat.new.view) }
{
    if board.corner(seat, 21) != 21 {
        return Err("another corner")?;
    }
    Ok(())
}

/// The reading of ticket 1 once x^3 is known, in place of the one before.
pub fn read_again(board: &SharedBoard, seat: &mut BoardSeat) -> Result<(), Fail>
    requires problem { board.now.setting.problem ≡ cubes }
    requires board { IsAt board.now seat.old }
    requires sits { Sits (made_cube 0 0 ∷ []) (Some (once_read 1 0)) seat.old.view }
    ensures board { IsAt board.now seat.new }
    ensures sits { OnOk result (Sits (made_cube 0 0 ∷ []) (Some (once_read 1 1)) seat.new.view) }
{
    if board.corner(seat, 21) != 21 {
        return Err("another corner")?;
    }
    Ok(())
}

/// The entry of ticket 0 or 1 where so many entries are known.
fn cube(alloc: Global, ticket: u32, known: u32) -> Result<Entry, Fail>
    requires { ticket ≤ 1 }
    ensures { IfOk result (λ e. entry_of e ≡ made_cube ticket known) }
{
    let mut made = Entry::room(alloc, 21)?;
    made.item = Item::Generator(ticket);
    made.reads.push(Reading { known, corner: 21 })?;
    made.terms.push(Term {
        rank: 6 + ticket,
        coef: 1,
    })?;
    Ok(made)
}

/// Whether this is the entry of ticket 0 or 1 where so many entries were known.
pub fn is_cube(entry: &Entry, ticket: u32, known: u32) -> bool
    requires { ticket ≤ 1 }
    ensures { result ≡ true → entry_of entry.now ≡ made_cube ticket known }
{
    is_of_generator(entry, ticket) && has_reading(entry, known, 21) && has_term(entry, 6 + ticket)
}

/// Tries to publish the entry of ticket 0 or 1, by a seat that knows nothing yet.
pub fn publish(
    alloc: Global,
    board: &SharedBoard,
    seat: &mut BoardSeat,
    ticket: u32,
) -> Result<Publish, Fail>
    requires problem { board.now.setting.problem ≡ cubes }
    requires board { IsAt board.now seat.old }
    requires sits { Sits [] (Some (once_read ticket 0)) seat.old.view }
    requires ticket { ticket ≤ 1 }
    ensures board { IsAt board.now seat.new }
    ensures tried { IfOk result (λ r. HasTried (once_read ticket 0) (made_cube ticket 0) r seat.new.view) }
{
    let draft = cube(alloc, ticket, 0)?;
    Ok(board.publish(seat, &draft))
}

/// Learns x^3, by the seat of ticket 1, which knows nothing yet, and tells whether it did.
pub fn learn(board: &SharedBoard, seat: &mut BoardSeat, desk: &mut Desk) -> bool
    requires desk { IsFor board.now desk.old }
    requires board { IsAt board.now seat.old }
    requires sits { Sits [] (Some (once_read 1 0)) seat.old.view }
    ensures board { IsAt board.now seat.new }
    ensures desk { IsFor board.now desk.new }
    ensures sits { result ≡ true → Sits (made_cube 0 0 ∷ []) (Some (once_read 1 0)) seat.new.view }
{
    if !desk.learn(board, seat, 0) {
        return false;
    }
    is_cube(&desk.room, 0, 0)
}

/// Tries to publish the entry of ticket 1, by a seat that knows x^3.
pub fn publish_again(
    alloc: Global,
    board: &SharedBoard,
    seat: &mut BoardSeat,
) -> Result<Publish, Fail>
    requires problem { board.now.setting.problem ≡ cubes }
    requires board { IsAt board.now seat.old }
    requires sits { Sits (made_cube 0 0 ∷ []) (Some (once_read 1 1)) seat.old.view }
    ensures board { IsAt board.now seat.new }
{
    let draft = cube(alloc, 1, 1)?;
    Ok(board.publish(seat, &draft))
}
