//! Two workers at one board, by turns: x^3, x^2*y and y^3 modulo degree 6.

ghost use Rattle.std.specs.Prelude.{◌≡◌, ◌≤◌, [], ◌∷◌, Some, None, OnOk};
ghost use Rattle.run_core.specs.Hand.{hand_of, marked};
ghost use Rattle.reducer_list.specs.Calls.{IsAt};
ghost use Rattle.board_tests.specs.Rows.{IsFor, Sits, cubes, made_cube, once_read};

use crate::desk::Desk;
use crate::seats::{claim, is_cube, learn, open, publish, publish_again, read, read_again};
use reducer_list::{BoardSeat, Claim, Look, Publish, SharedBoard};
use std::alloc::Global;
use std::test::Fail;

/// The first worker takes ticket 0.
fn first_ticket(board: &SharedBoard, first: &mut BoardSeat) -> Result<(), Fail>
    requires board { IsAt board.now first.old }
    requires sits { Sits [] None first.old.view }
    ensures board { IsAt board.now first.new }
    ensures sits { OnOk result (Sits [] (Some (hand_of 0)) first.new.view) }
{
    let Claim::Claimed(0) = claim(board, first) else {
        return Err("ticket 0 isn't the first")?;
    };
    Ok(())
}

/// The second worker comes too late for it, and takes ticket 1.
fn second_ticket(board: &SharedBoard, second: &mut BoardSeat) -> Result<(), Fail>
    requires board { IsAt board.now second.old }
    requires sits { Sits [] None second.old.view }
    ensures board { IsAt board.now second.new }
    ensures sits { OnOk result (Sits [] (Some (hand_of 1)) second.new.view) }
{
    let Claim::Later(1) = claim(board, second) else {
        return Err("ticket 0 is claimed twice")?;
    };
    let Claim::Claimed(1) = claim(board, second) else {
        return Err("ticket 1 isn't the next")?;
    };
    Ok(())
}

/// The first worker publishes x^3.
fn first_entry(alloc: Global, board: &SharedBoard, first: &mut BoardSeat) -> Result<(), Fail>
    requires problem { board.now.setting.problem ≡ cubes }
    requires board { IsAt board.now first.old }
    requires sits { Sits [] (Some (once_read 0 0)) first.old.view }
    ensures board { IsAt board.now first.new }
    ensures sits { OnOk result (Sits (made_cube 0 0 ∷ []) (marked (Some (once_read 0 0))) first.new.view) }
{
    let Publish::Published(0) = publish(alloc, board, first, 0)? else {
        return Err("x^3 isn't entry 0")?;
    };
    Ok(())
}

/// The second worker comes too late for place 0, and learns what stands there.
fn second_learns(
    alloc: Global,
    board: &SharedBoard,
    second: &mut BoardSeat,
    desk: &mut Desk,
) -> Result<(), Fail>
    requires problem { board.now.setting.problem ≡ cubes }
    requires desk { IsFor board.now desk.old }
    requires board { IsAt board.now second.old }
    requires sits { Sits [] (Some (once_read 1 0)) second.old.view }
    ensures board { IsAt board.now second.new }
    ensures desk { IsFor board.now desk.new }
    ensures sits { OnOk result (Sits (made_cube 0 0 ∷ []) (Some (once_read 1 0)) second.new.view) }
{
    let Publish::Longer = publish(alloc, board, second, 1)? else {
        return Err("two entries at one place")?;
    };
    if !learn(board, second, desk) {
        return Err("x^3 isn't there")?;
    }
    Ok(())
}

/// The second worker reads again and publishes x^2*y, and there is no third entry.
fn second_entry(
    alloc: Global,
    board: &SharedBoard,
    second: &mut BoardSeat,
    desk: &mut Desk,
) -> Result<(), Fail>
    requires problem { board.now.setting.problem ≡ cubes }
    requires desk { IsFor board.now desk.old }
    requires board { IsAt board.now second.old }
    requires sits { Sits (made_cube 0 0 ∷ []) (Some (once_read 1 0)) second.old.view }
    ensures board { IsAt board.now second.new }
    ensures desk { IsFor board.now desk.new }
{
    read_again(board, second)?;
    let Publish::Published(1) = publish_again(alloc, board, second)? else {
        return Err("x^2*y isn't entry 1")?;
    };
    let Look::Nothing = desk.look(board, second) else {
        return Err("a third entry")?;
    };
    Ok(())
}

/// The first worker learns x^2*y, and recalls x^3: whether they are these.
fn first_learns(board: &SharedBoard, first: &mut BoardSeat, desk: &mut Desk) -> Result<bool, Fail>
    requires desk { IsFor board.now desk.old }
    requires board { IsAt board.now first.old }
    requires sits { Sits (made_cube 0 0 ∷ []) (marked (Some (once_read 0 0))) first.old.view }
    ensures board { IsAt board.now first.new }
{
    let Look::Learnt(1) = desk.look(board, first) else {
        return Err("x^2*y isn't there")?;
    };
    if first.known() != 2 {
        return Err("another number of entries")?;
    }
    let second_is = is_cube(&desk.room, 1, 1);
    desk.recall(board, first, 0);
    Ok(second_is && is_cube(&desk.room, 0, 0))
}

/// Each worker takes a ticket and reads the corner, before the first publishes.
fn both_read(
    alloc: Global,
    board: &SharedBoard,
    first: &mut BoardSeat,
    second: &mut BoardSeat,
) -> Result<(), Fail>
    requires problem { board.now.setting.problem ≡ cubes }
    requires first_board { IsAt board.now first.old }
    requires second_board { IsAt board.now second.old }
    requires first { Sits [] None first.old.view }
    requires second { Sits [] None second.old.view }
    ensures first_board { IsAt board.now first.new }
    ensures second_board { IsAt board.now second.new }
    ensures first { OnOk result (Sits (made_cube 0 0 ∷ []) (marked (Some (once_read 0 0))) first.new.view) }
    ensures second { OnOk result (Sits [] (Some (once_read 1 0)) second.new.view) }
{
    first_ticket(board, first)?;
    second_ticket(board, second)?;
    read(board, first, 0)?;
    read(board, second, 1)?;
    first_entry(alloc, board, first)
}

#[test]
fn each_learns_what_the_other_published(rt: HostRuntime) -> Result<(), Fail> {
    let alloc = rt.alloc();
    let (board, mut first, mut second) = open(alloc)?;
    let mut desk = Desk::new(alloc, &board)?;
    both_read(alloc, &board, &mut first, &mut second)?;
    second_learns(alloc, &board, &mut second, &mut desk)?;
    second_entry(alloc, &board, &mut second, &mut desk)?;
    assert!(rt;
        first_learns(&board, &mut first, &mut desk)?,
        "other entries than x^3 and x^2*y"
    );
    Ok(())
}
