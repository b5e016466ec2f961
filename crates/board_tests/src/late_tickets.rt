//! Two workers at one board, by turns, until no ticket is left: x - x^2 - y^3 and x modulo degree 5.

ghost use Rattle.std.specs.Prelude.{◌≡◌, [], ◌∷◌, Some, None, OnOk};
ghost use Rattle.mora_law.specs.Examples.{kept_problem};
ghost use Rattle.run_core.specs.Hand.{marked};
ghost use Rattle.reducer_list.specs.Calls.{IsAt};
ghost use Rattle.board_tests.specs.Rows.{IsFor, Sits, curve_entry, curve_hand};

use crate::curve::{claim_last, claim_next, learn, open, publish, read, read_next};
use crate::desk::Desk;
use crate::seats::claim;
use reducer_list::{BoardSeat, Claim, Publish, SharedBoard};
use std::alloc::Global;
use std::test::Fail;

/// The first worker makes the entry of x - x^2 - y^3.
fn first_entry(alloc: Global, board: &SharedBoard, first: &mut BoardSeat) -> Result<(), Fail>
    requires problem { board.now.setting.problem ≡ kept_problem }
    requires board { IsAt board.now first.old }
    requires sits { Sits [] None first.old.view }
    ensures board { IsAt board.now first.new }
    ensures sits { OnOk result (Sits (curve_entry ∷ []) (marked (Some curve_hand)) first.new.view) }
{
    let Claim::Claimed(0) = claim(board, first) else {
        return Err("ticket 0 isn't the first")?;
    };
    read(board, first)?;
    let Publish::Published(0) = publish(alloc, board, first)? else {
        return Err("x - x^2 - y^3 isn't entry 0")?;
    };
    Ok(())
}

/// The second worker learns that entry, and takes the ticket of x.
fn second_ticket(board: &SharedBoard, second: &mut BoardSeat, desk: &mut Desk) -> Result<(), Fail>
    requires problem { board.now.setting.problem ≡ kept_problem }
    requires desk { IsFor board.now desk.old }
    requires board { IsAt board.now second.old }
    requires sits { Sits [] None second.old.view }
    ensures board { IsAt board.now second.new }
{
    if !learn(board, second, desk) {
        return Err("x - x^2 - y^3 isn't there")?;
    }
    let Claim::Later(1) = claim_next(board, second) else {
        return Err("ticket 0 is claimed twice")?;
    };
    let Claim::Claimed(1) = claim_next(board, second) else {
        return Err("ticket 1 isn't the next")?;
    };
    read_next(board, second)
}

/// The first worker comes too late for that ticket, and there is no other.
fn no_ticket(board: &SharedBoard, first: &mut BoardSeat) -> Result<(), Fail>
    requires problem { board.now.setting.problem ≡ kept_problem }
    requires board { IsAt board.now first.old }
    requires sits { Sits (curve_entry ∷ []) (marked (Some curve_hand)) first.old.view }
    ensures board { IsAt board.now first.new }
{
    let Claim::Later(2) = claim_last(board, first) else {
        return Err("ticket 1 is claimed twice")?;
    };
    let Claim::NoneKnown = claim_last(board, first) else {
        return Err("a third ticket")?;
    };
    Ok(())
}

#[test]
fn a_later_number_is_told_and_then_none(rt: HostRuntime) -> Result<(), Fail> {
    let alloc = rt.alloc();
    let (board, mut first, mut second) = open(alloc)?;
    let mut desk = Desk::new(alloc, &board)?;
    first_entry(alloc, &board, &mut first)?;
    second_ticket(&board, &mut second, &mut desk)?;
    no_ticket(&board, &mut first)
}
