//! The steps of the example with x - x^2 - y^3 and x, by a seat that is told what it sits at.

ghost use Rattle.std.specs.Prelude.{◌≡◌, ◌≤◌, [], ◌∷◌, Some, None, true, IfOk, OnOk};
ghost use Rattle.entry_code.specs.Entry.{entry_of};
ghost use Rattle.mora_law.specs.Examples.{kept_problem, term as term_of};
ghost use Rattle.run_core.specs.Hand.{hand_of, marked};
ghost use Rattle.reducer_list.specs.Calls.{IsAt};
ghost use Rattle.board_tests.specs.Rows.{IsFor, Sits, HasTaken, HasTried, curve_entry, curve_hand};

use crate::build::curve_and_line;
use crate::desk::{Desk, has_reading, is_of_generator, is_term};
use entry_code::{Entry, Item, Reading, Term, Terms};
use reducer_list::{BoardSeat, Claim, Publish, SharedBoard};
use std::alloc::Global;
use std::test::Fail;

/// A board for two workers, with the seat of each.
pub fn open(alloc: Global) -> Result<(SharedBoard, BoardSeat, BoardSeat), Fail>
    ensures problem { IfOk result (λ r. r.0.setting.problem ≡ kept_problem) }
    ensures first_board { IfOk result (λ r. IsAt r.0 r.1) }
    ensures second_board { IfOk result (λ r. IsAt r.0 r.2) }
    ensures first { IfOk result (λ r. Sits [] None r.1.view) }
    ensures second { IfOk result (λ r. Sits [] None r.2.view) }
{
    let problem = curve_and_line(alloc)?;
    let (board, mut first) = SharedBoard::open(alloc, &problem, 2)?;
    let second = board.split(&mut first);
    Ok((board, first, second))
}

/// A reading of the corner 15 by the first seat, which has ticket 0.
pub fn read(board: &SharedBoard, seat: &mut BoardSeat) -> Result<(), Fail>
    requires problem { board.now.setting.problem ≡ kept_problem }
    requires board { IsAt board.now seat.old }
    requires sits { Sits [] (Some (hand_of 0)) seat.old.view }
    ensures board { IsAt board.now seat.new }
    ensures sits { OnOk result (Sits [] (Some curve_hand) seat.new.view) }
{
    if board.corner(seat, 15) != 15 {
        return Err("another corner")?;
    }
    Ok(())
}

/// The entry of x - x^2 - y^3.
fn curve(alloc: Global) -> Result<Entry, Fail>
    ensures { IfOk result (λ e. entry_of e ≡ curve_entry) }
{
    let mut made = Entry::room(alloc, 15)?;
    made.item = Item::Generator(0);
    made.reads.push(Reading {
        known: 0,
        corner: 15,
    })?;
    made.terms.push(Term { rank: 1, coef: 1 })?;
    made.terms.push(Term {
        rank: 3,
        coef: 32002,
    })?;
    made.terms.push(Term {
        rank: 9,
        coef: 32002,
    })?;
    Ok(made)
}

/// Whether the terms are those of x - x^2 - y^3.
fn are_terms(terms: &Terms) -> bool
    ensures { result ≡ true → terms.now.list ≡ term_of 1 1 ∷ term_of 3 32002 ∷ term_of 9 32002 ∷ [] }
{
    if terms.len() != 3 {
        return false;
    }
    let first = terms.get(0);
    let second = terms.get(1);
    let third = terms.get(2);
    if !is_term(first, 1, 1) {
        return false;
    }
    if !is_term(second, 3, 32002) {
        return false;
    }
    is_term(third, 9, 32002)
}

/// Whether this is the entry of x - x^2 - y^3.
fn is_curve(entry: &Entry) -> bool
    ensures { result ≡ true → entry_of entry.now ≡ curve_entry }
{
    is_of_generator(entry, 0) && has_reading(entry, 0, 15) && are_terms(&entry.terms)
}

/// Tries to publish x - x^2 - y^3, by the first seat.
pub fn publish(alloc: Global, board: &SharedBoard, seat: &mut BoardSeat) -> Result<Publish, Fail>
    requires problem { board.now.setting.problem ≡ kept_problem }
    requires board { IsAt board.now seat.old }
    requires sits { Sits [] (Some curve_hand) seat.old.view }
    ensures board { IsAt board.now seat.new }
    ensures tried { IfOk result (λ r. HasTried curve_hand curve_entry r seat.new.view) }
{
    let draft = curve(alloc)?;
    Ok(board.publish(seat, &draft))
}

/// Learns x - x^2 - y^3, by a seat that knows nothing yet, and tells whether it did.
pub fn learn(board: &SharedBoard, seat: &mut BoardSeat, desk: &mut Desk) -> bool
    requires desk { IsFor board.now desk.old }
    requires board { IsAt board.now seat.old }
    requires sits { Sits [] None seat.old.view }
    ensures board { IsAt board.now seat.new }
    ensures desk { IsFor board.now desk.new }
    ensures sits { result ≡ true → Sits (curve_entry ∷ []) None seat.new.view }
{
    if !desk.learn(board, seat, 0) {
        return false;
    }
    is_curve(&desk.room)
}

/// A claim by a seat that knows x - x^2 - y^3.
pub fn claim_next(board: &SharedBoard, seat: &mut BoardSeat) -> Claim
    requires board { IsAt board.now seat.old }
    requires sits { Sits (curve_entry ∷ []) None seat.old.view }
    ensures board { IsAt board.now seat.new }
    ensures sits { HasTaken (curve_entry ∷ []) None result seat.new.view }
{
    board.claim(seat)
}

/// A reading of the corner 15 by the second seat, which has ticket 1.
pub fn read_next(board: &SharedBoard, seat: &mut BoardSeat) -> Result<(), Fail>
    requires problem { board.now.setting.problem ≡ kept_problem }
    requires board { IsAt board.now seat.old }
    requires sits { Sits (curve_entry ∷ []) (Some (hand_of 1)) seat.old.view }
    ensures board { IsAt board.now seat.new }
{
    if board.corner(seat, 15) != 15 {
        return Err("another corner")?;
    }
    Ok(())
}

/// A claim by the seat that published x - x^2 - y^3.
pub fn claim_last(board: &SharedBoard, seat: &mut BoardSeat) -> Claim
    requires problem { board.now.setting.problem ≡ kept_problem }
    requires board { IsAt board.now seat.old }
    requires sits { Sits (curve_entry ∷ []) (marked (Some curve_hand)) seat.old.view }
    ensures board { IsAt board.now seat.new }
    ensures sits { HasTaken (curve_entry ∷ []) (marked (Some curve_hand)) result seat.new.view }
{
    board.claim(seat)
}
