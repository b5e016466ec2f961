//! Workers in threads of their own, each of which publishes an entry, learns those of all others, and reads all of them again.

ghost use Rattle.std.specs.Prelude.{◌≡◌, ◌≤◌, [], None, false, IfSome};
ghost use Rattle.std.specs.Thread.{IsSync};
ghost use Rattle.reducer_list.specs.View.{is_busy};
ghost use Rattle.reducer_list.specs.Calls.{IsAt};
ghost use Rattle.board_tests.specs.Rows.{IsFor, Sits};
ghost use Rattle.board_tests.specs.Cubics.{HasEnded, HasNumbers, HasPosted, MayBegin, MayWork};

use crate::cubics::{GENERATORS, look_on, open, part, publish_own, recall, take_ticket};
use crate::desk::Desk;
use reducer_list::{BoardSeat, Look, SharedBoard};
use std::alloc::Global;
use std::sync::atomic::AtomicU64;
use std::sync::atomic::Ordering::SeqCst;
use std::test::Fail;
use std::thread::{Threads, join, yield_now};

/// How often a thread looks whether the others have done their part, before it gives up.
const PATIENCE: u32 = 20_000_000;

/// A seat whose work is done, and the generators in the order in which its thread read their entries again.
#[derive(Drop)]
struct Done {
    seat: BoardSeat,
    order: Vec<u32>,
}

/// Waits until all threads are there, so that they call the board at the same time.
fn meet(gate: &AtomicU64, all: u32) {
    gate.fetch_add(1, SeqCst);
    for _ in 0..PATIENCE {
        if gate.load(SeqCst) >= u64::from(all) {
            return;
        }
        yield_now();
    }
}

/// Looks until so many entries are known.
fn learn_all(board: &SharedBoard, seat: &mut BoardSeat, desk: &mut Desk, all: u32)
    requires desk { IsFor board.now desk.old }
    requires board { IsAt board.now seat.old }
    requires posted { HasPosted seat.old.view }
    ensures board { IsAt board.now seat.new }
    ensures desk { IsFor board.now desk.new }
    ensures posted { HasPosted seat.new.view }
{
    for _ in 0..PATIENCE {
        if seat.known() >= all {
            return;
        }
        if !look_on(board, seat, desk) {
            yield_now();
        }
    }
}

/// The generators of the entries, which are read again.
fn recall_all(
    alloc: Global,
    board: &SharedBoard,
    seat: &mut BoardSeat,
    desk: &mut Desk,
    all: u32,
) -> Option<Vec<u32>>
    requires desk { IsFor board.now desk.old }
    requires board { IsAt board.now seat.old }
    requires posted { HasPosted seat.old.view }
    ensures board { IsAt board.now seat.new }
    ensures desk { IsFor board.now desk.new }
    ensures posted { HasPosted seat.new.view }
{
    let mut order = Vec::new(alloc);
    for i in 0..all {
        let generator = recall(board, seat, desk, i)?;
        if order.push(generator).is_err() {
            return None;
        }
    }
    Some(order)
}

/// What one thread does.
fn work(
    alloc: Global,
    board: &SharedBoard,
    gate: &AtomicU64,
    mut seat: BoardSeat,
    all: u32,
) -> Option<Done>
    requires { MayWork board.now seat }
    ensures { IfSome result (λ d. HasEnded board.now d.seat) }
{
    meet(gate, all);
    let ticket = take_ticket(board, &mut seat)?;
    let Ok(mut desk) = Desk::new(alloc, board) else {
        return None;
    };
    if !publish_own(alloc, board, &mut seat, &mut desk, ticket) {
        return None;
    }
    learn_all(board, &mut seat, &mut desk, all);
    let order = recall_all(alloc, board, &mut seat, &mut desk, all)?;
    shut(&seat);
    Some(Done { seat, order })
}

/// Shows that a seat whose entry is published has no open hand.
fn shut(seat: &BoardSeat)
    requires { HasPosted seat.now.view }
    ensures { is_busy seat.now.view ≡ false }
{}

/// One seat of two, if both have read the same list.
fn unite(board: &SharedBoard, mut first: Done, second: Done) -> Option<Done>
    requires first { HasEnded board.now first.seat }
    requires second { HasEnded board.now second.seat }
    ensures { IfSome result (λ d. HasEnded board.now d.seat) }
{
    if first.order.as_slice() != second.order.as_slice() {
        return None;
    }
    board.join(&mut first.seat, second.seat);
    Some(first)
}

/// Each of the numbers of a seat works in a thread of its own; then the seats are joined.
fn crowd<R: Threads + Sync>(
    rt: &R,
    alloc: Global,
    board: &SharedBoard,
    gate: &AtomicU64,
    mut seat: BoardSeat,
    numbers: u32,
    all: u32,
) -> Option<Done>
    requires { MayBegin board.now numbers seat }
    ensures { IfSome result (λ d. HasEnded board.now d.seat) }
{
    if numbers == 1 {
        alone(&seat);
        return work(alloc, board, gate, seat, all);
    }
    let given = part(board, &mut seat, numbers);
    let less = numbers - 1;
    let (first, second) = join(
        rt,
        move || -> Option<Done>
            requires { IsSync R.row × MayBegin board.now less seat }
            ensures { IfSome result (λ d. HasEnded board.entry.now d.seat) }
        { crowd(rt, alloc, board, gate, seat, less, all) },
        move || -> Option<Done>
            requires { MayWork board.now given }
            ensures { IfSome result (λ d. HasEnded board.entry.now d.seat) }
        { work(alloc, board, gate, given, all) },
    );
    unite(board, first?, second?)
}

/// Shows that a seat with one number that did nothing yet sits with no entries and no hand.
fn alone(seat: &BoardSeat)
    requires { HasNumbers 1 seat.now.view }
    ensures { Sits [] None seat.now.view }
{}

/// How often a generator stands in the order.
fn times(order: &[u32], generator: u32) -> usize {
    order.iter().filter(|g| **g == generator).count()
}

/// Whether each of the first generators stands once in the order.
fn is_order(order: &[u32], all: u32) -> bool {
    for generator in 0..all {
        if times(order, generator) != 1 {
            return false;
        }
    }
    order.len() == all as usize
}

/// Whether a seat that has read the whole list knows so many entries, each of another generator, and there is no other.
fn has_all(alloc: Global, board: &SharedBoard, mut done: Done, all: u32) -> Result<bool, Fail>
    requires { HasEnded board.now done.seat }
{
    let mut desk = Desk::new(alloc, board)?;
    let Look::Nothing = desk.look(board, &mut done.seat) else {
        return Ok(false);
    };
    Ok(done.seat.known() == all && is_order(done.order.as_slice(), all))
}

/// One board, with so many threads: whether all have one list, and together know no other.
fn meeting<R: Threads + Sync>(rt: &R, alloc: Global, all: u32) -> Result<bool, Fail>
    requires some { 1 ≤ all }
    requires few { all ≤ 8 }
{
    let (board, seat) = open(alloc, all)?;
    let gate = AtomicU64::new(0);
    match crowd(rt, alloc, &board, &gate, seat, all, all) {
        None => Ok(false),
        Some(done) => has_all(alloc, &board, done, all),
    }
}

#[test]
fn two_threads_recall_what_the_other_published(rt: HostRuntime) -> Result<(), Fail> {
    for _ in 0..50u32 {
        assert!(rt; meeting(&rt, rt.alloc(), 2)?);
    }
    Ok(())
}

#[test]
fn eight_threads_have_one_list(rt: HostRuntime) -> Result<(), Fail> {
    for _ in 0..50u32 {
        assert!(rt; meeting(&rt, rt.alloc(), GENERATORS)?);
    }
    Ok(())
}
