//! The steps of a worker at the ideal of eight monomials of degree 3, whichever of them it has and whatever others publish meanwhile.

ghost use Rattle.std.specs.Prelude.{◌≡◌, ◌-◌, ◌<◌, ◌≤◌, [], ◌∷◌, ◌++◌, None, true, IfOk, IfSome};
ghost use Rattle.entry_code.specs.Entry.{entry_of};
ghost use Rattle.reducer_list.specs.Calls.{IsAt};
ghost use Rattle.board_tests.specs.Rows.{IsFor, Sits};
ghost use Rattle.board_tests.specs.Cubics.{of_cubic, in_plane, cubics, cubic_entry, HasNumbers, HasPosted, HasRead, HasTriedAt, IsOfCubics, IsOther, Works};

use crate::desk::{Desk, has_term};
use crate::seats::claim;
use entry_code::{Entry, Item, Reading, Term};
use local_order::Mono;
use prime_field::Field;
use reducer_list::{BoardSeat, Claim, Look, Publish, SharedBoard};
use sparse_poly::{Poly, PolyTerm, Polys, Problem};
use std::alloc::Global;
use std::test::Fail;

/// How many generators there are.
pub const GENERATORS: u32 = 8;

/// x^a*y^b*z^c.
fn monomial(alloc: Global, field: &Field, a: u16, b: u16, c: u16) -> Result<Poly, Fail>
    requires { field.now ≡ 32003 }
    ensures { IfOk result (λ f. f ≡ of_cubic a b c) }
{
    let mut terms = Vec::new(alloc);
    terms.push(PolyTerm {
        mono: Mono::new(&[a, b, c]).ok_or("no monomial")?,
        coef: 1,
    })?;
    Ok(Poly::from_terms(alloc, field, 3, terms)?)
}

/// Puts x^a*y^b*z^c at the end of these generators.
fn add(alloc: Global, field: &Field, mut gens: Polys, a: u16, b: u16, c: u16) -> Result<Polys, Fail>
    requires { field.now ≡ 32003 }
    ensures { IfOk result (λ l. l ≡ gens ++ of_cubic a b c ∷ []) }
{
    gens.push(monomial(alloc, field, a, b, c)?)?;
    Ok(gens)
}

/// The generators without z.
fn generators_in_plane(alloc: Global, field: &Field) -> Result<Polys, Fail>
    requires { field.now ≡ 32003 }
    ensures { IfOk result (λ l. l ≡ in_plane) }
{
    let gens = Polys::new(alloc);
    let gens = add(alloc, field, gens, 3, 0, 0)?;
    let gens = add(alloc, field, gens, 2, 1, 0)?;
    let gens = add(alloc, field, gens, 1, 2, 0)?;
    add(alloc, field, gens, 0, 3, 0)
}

/// The first eight monomials of degree 3 in x, y and z, modulo degree 4.
fn problem(alloc: Global) -> Result<Problem, Fail>
    ensures { IfOk result (λ p. p ≡ cubics) }
{
    let field = Field::of(32003).ok_or("no field")?;
    let gens = generators_in_plane(alloc, &field)?;
    let gens = add(alloc, &field, gens, 2, 0, 1)?;
    let gens = add(alloc, &field, gens, 1, 1, 1)?;
    let gens = add(alloc, &field, gens, 0, 2, 1)?;
    let gens = add(alloc, &field, gens, 1, 0, 2)?;
    Ok(Problem::checked(field, 3, 3, gens).ok_or("no problem")?)
}

/// A board for so many workers, and the seat that has their numbers.
pub fn open(alloc: Global, workers: u32) -> Result<(SharedBoard, BoardSeat), Fail>
    requires some { 1 ≤ workers }
    requires few { workers ≤ 8 }
    ensures problem { IfOk result (λ r. IsOfCubics r.0) }
    ensures board { IfOk result (λ r. IsAt r.0 r.1) }
    ensures seat { IfOk result (λ r. HasNumbers workers r.1.view) }
{
    let problem = problem(alloc)?;
    Ok(SharedBoard::open(alloc, &problem, workers)?)
}

/// A seat of its own for the greatest of so many numbers.
pub fn part(board: &SharedBoard, seat: &mut BoardSeat, numbers: u32) -> BoardSeat
    requires board { IsAt board.now seat.old }
    requires numbers { HasNumbers numbers seat.old.view }
    requires many { 1 < numbers }
    requires few { numbers ≤ 8 }
    ensures board { IsAt board.now seat.new }
    ensures given_board { IsAt board.now result }
    ensures left { HasNumbers (numbers - 1) seat.new.view }
    ensures given { Sits [] None result.view }
{
    board.split(seat)
}

/// Takes a ticket, which must be that of a generator, by a seat that knows nothing yet.
pub fn take_ticket(board: &SharedBoard, seat: &mut BoardSeat) -> Option<u32>
    requires board { IsAt board.now seat.old }
    requires sits { Sits [] None seat.old.view }
    ensures board { IsAt board.now seat.new }
    ensures works { IfSome result (λ t. Works t seat.new.view) }
{
    for _ in 0..=GENERATORS {
        match claim(board, seat) {
            Claim::NoneKnown => return None,
            Claim::Claimed(ticket) => {
                if ticket >= 8 {
                    return None;
                }
                return Some(ticket as u32);
            }
            Claim::Later(_) => {}
        }
    }
    None
}

/// Reads the corner, and tells whether it is 20.
fn read(board: &SharedBoard, seat: &mut BoardSeat, ticket: u32) -> bool
    requires problem { IsOfCubics board.now }
    requires board { IsAt board.now seat.old }
    requires works { Works ticket seat.old.view }
    ensures board { IsAt board.now seat.new }
    ensures read { result ≡ true → HasRead ticket seat.new.view }
{
    if board.corner(seat, 20) != 20 {
        return false;
    }
    true
}

/// The entry of a generator where so many entries are known.
fn entry(alloc: Global, ticket: u32, known: u32) -> Option<Entry>
    requires { ticket < 8 }
    ensures { IfSome result (λ e. entry_of e ≡ cubic_entry ticket known) }
{
    let Ok(mut made) = Entry::room(alloc, 20) else {
        return None;
    };
    made.item = Item::Generator(ticket);
    if made.reads.push(Reading { known, corner: 20 }).is_err() {
        return None;
    }
    let term = Term {
        rank: 10 + ticket,
        coef: 1,
    };
    if made.terms.push(term).is_err() {
        return None;
    }
    Some(made)
}

/// Tries to publish the entry of the seat's ticket.
fn publish(alloc: Global, board: &SharedBoard, seat: &mut BoardSeat, ticket: u32) -> Option<Publish>
    requires problem { IsOfCubics board.now }
    requires board { IsAt board.now seat.old }
    requires read { HasRead ticket seat.old.view }
    ensures board { IsAt board.now seat.new }
    ensures tried { IfSome result (λ r. HasTriedAt ticket r seat.new.view) }
{
    let draft = entry(alloc, ticket, seat.known())?;
    Some(board.publish(seat, &draft))
}

/// Which other generator this entry has as its one term, if it has one.
fn other(entry: &Entry, ticket: u32) -> Option<u32>
    ensures { IfSome result (λ _. IsOther ticket (entry_of entry.now)) }
{
    for generator in 0..GENERATORS {
        if is_other(entry, ticket, generator) {
            return Some(generator);
        }
    }
    None
}

/// Whether the one term of this entry is that of a generator, which is another one than that.
fn is_other(entry: &Entry, ticket: u32, generator: u32) -> bool
    requires { generator < 8 }
    ensures { result ≡ true → IsOther ticket (entry_of entry.now) }
{
    if generator == ticket {
        return false;
    }
    has_term(entry, 10 + generator)
}

/// Learns the next entry, and tells whether it is that of another generator.
fn learn(board: &SharedBoard, seat: &mut BoardSeat, desk: &mut Desk, ticket: u32) -> bool
    requires desk { IsFor board.now desk.old }
    requires board { IsAt board.now seat.old }
    requires read { HasRead ticket seat.old.view }
    ensures board { IsAt board.now seat.new }
    ensures desk { IsFor board.now desk.new }
    ensures works { result ≡ true → Works ticket seat.new.view }
{
    let place = seat.known();
    if !desk.learn(board, seat, place) {
        return false;
    }
    is_of_another(&desk.room, ticket)
}

/// Whether the entry is that of another generator.
fn is_of_another(entry: &Entry, ticket: u32) -> bool
    ensures { result ≡ true → IsOther ticket (entry_of entry.now) }
{
    match other(entry, ticket) {
        Some(_) => true,
        None => false,
    }
}

/// Publishes the entry of the seat's ticket, learns what others published before, and tells whether all went well.
pub fn publish_own(
    alloc: Global,
    board: &SharedBoard,
    seat: &mut BoardSeat,
    desk: &mut Desk,
    ticket: u32,
) -> bool
    requires problem { IsOfCubics board.now }
    requires desk { IsFor board.now desk.old }
    requires board { IsAt board.now seat.old }
    requires works { Works ticket seat.old.view }
    ensures board { IsAt board.now seat.new }
    ensures desk { IsFor board.now desk.new }
    ensures posted { result ≡ true → HasPosted seat.new.view }
{
    for _ in 0..GENERATORS {
        if !read(board, seat, ticket) {
            return false;
        }
        match publish(alloc, board, seat, ticket) {
            None => return false,
            Some(Publish::Published(_)) => return true,
            Some(Publish::Longer) => {}
        }
        if !learn(board, seat, desk, ticket) {
            return false;
        }
    }
    false
}

/// Learns an entry, if there is a further one, by a seat whose own entry is published.
pub fn look_on(board: &SharedBoard, seat: &mut BoardSeat, desk: &mut Desk) -> bool
    requires desk { IsFor board.now desk.old }
    requires board { IsAt board.now seat.old }
    requires posted { HasPosted seat.old.view }
    ensures board { IsAt board.now seat.new }
    ensures desk { IsFor board.now desk.new }
    ensures posted { HasPosted seat.new.view }
{
    desk.look(board, seat) != Look::Nothing
}

/// Reads an entry again, which must be known and that of a generator, and tells which.
pub fn recall(board: &SharedBoard, seat: &mut BoardSeat, desk: &mut Desk, i: u32) -> Option<u32>
    requires desk { IsFor board.now desk.old }
    requires board { IsAt board.now seat.old }
    requires posted { HasPosted seat.old.view }
    ensures board { IsAt board.now seat.new }
    ensures desk { IsFor board.now desk.new }
    ensures posted { HasPosted seat.new.view }
{
    if i >= seat.known() {
        return None;
    }
    desk.recall(board, seat, i);
    other(&desk.room, GENERATORS)
}
