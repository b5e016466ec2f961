//! A member of the reduced standard basis.

ghost use Rattle.std.specs.Prelude.{ℕ, ◌≡◌, ◌<◌, length, map, All, IfOk, Ok, slice_index, slice_index_or};
ghost use Rattle.local_order.specs.Shape.{count};
ghost use Rattle.sparse_poly.specs.Shape.{shape_of};
ghost use Rattle.sparse_poly.specs.Ideal.{IsProblem};
ghost use Rattle.rank_algebra.specs.Rows.{IsRow, vector_of_row};
ghost use Rattle.rank_algebra.specs.Vector.{Agree};
ghost use Rattle.rank_algebra.specs.Division.{corner_of};
ghost use Rattle.mora_law.specs.Ring.{ranks_of_problem};
ghost use Rattle.mora_law.specs.Entries.{basis_of};
ghost use Rattle.mora_law.specs.Basis.{tidied};
ghost use Rattle.tail_reduce.specs.Terms.{HaveTerms};
ghost use Rattle.tail_reduce.specs.Divisors.{AreFirsts};
ghost use Rattle.tail_reduce.specs.Members.{member_of};

use crate::divisors::Divisor;
use crate::rows::divide;
use entry_code::Entries;
use mono_rank::RankTable;
use sparse_poly::{Poly, Polys, Problem};
use std::alloc::{AllocError, Global};
use std::thread;
use std::thread::Threads;
use trunc_row::{poly_of, write_terms};

/// The members that the entries at some places make, one for each place, in their order. Each may be made in a thread of its own.
pub(crate) fn members<R: Threads + Sync>(
    rt: &R,
    alloc: Global,
    problem: &Problem,
    table: &RankTable,
    entries: &Entries,
    firsts: &[Option<Divisor>],
    corner: u32,
    places: Vec<u32>,
) -> Result<Polys, AllocError>
    requires problem { IsProblem problem.now }
    requires table { table.now ≡ shape_of problem.now }
    requires entries { HaveTerms problem.now entries.now }
    requires firsts { AreFirsts (ranks_of_problem problem.now) (basis_of entries.now) (count (shape_of problem.now)) firsts.now }
    requires corner { corner ≡ corner_of (ranks_of_problem problem.now) (basis_of entries.now) }
    requires places { All (λ k. k < length entries.now) places.items }
    ensures { IfOk result (λ l. l ≡ map (member_of problem.now entries.now) places.items) }
{
    let made = made_at(rt, alloc, problem, table, entries, firsts, corner, places)?;
    all_made(alloc, made)
}

/// The member at each of some places, where memory sufficed for it. Each is a job of its own, for which a thread may be started.
fn made_at<R: Threads + Sync>(
    rt: &R,
    alloc: Global,
    problem: &Problem,
    table: &RankTable,
    entries: &Entries,
    firsts: &[Option<Divisor>],
    corner: u32,
    places: Vec<u32>,
) -> Result<Vec<Result<Poly, AllocError>>, AllocError>
    requires problem { IsProblem problem.now }
    requires table { table.now ≡ shape_of problem.now }
    requires entries { HaveTerms problem.now entries.now }
    requires firsts { AreFirsts (ranks_of_problem problem.now) (basis_of entries.now) (count (shape_of problem.now)) firsts.now }
    requires corner { corner ≡ corner_of (ranks_of_problem problem.now) (basis_of entries.now) }
    requires places { All (λ k. k < length entries.now) places.items }
    ensures len { IfOk result (λ v. length v.items ≡ length places.items) }
    ensures each { IfOk result (λ v. (i : ℕ) (d : _) → i < length places.items
        → IfOk (slice_index_or v.items i d) (λ f. f ≡ member_of problem.now entries.now (slice_index places.items i))) }
{
    thread::map_vec(
        rt,
        places,
        &|place: u32| -> Result<Poly, AllocError>
            requires problem { IsProblem problem.now }
            requires table { table.now ≡ shape_of problem.now }
            requires entries { HaveTerms problem.now entries.now }
            requires firsts { AreFirsts (ranks_of_problem problem.now) (basis_of entries.now) (count (shape_of problem.now)) firsts.now }
            requires corner { corner ≡ corner_of (ranks_of_problem problem.now) (basis_of entries.now) }
            requires place { place < length entries.now }
            ensures { IfOk result (λ f. f ≡ member_of problem.entry.now entries.entry.now place) }
        { member(alloc, problem, table, entries, firsts, corner, place) },
    )
}

/// The members, if memory sufficed for each.
fn all_made(alloc: Global, made: Vec<Result<Poly, AllocError>>) -> Result<Polys, AllocError>
    ensures { IfOk result (λ l. map Ok l ≡ made.items) }
{
    let mut members = Polys::new(alloc);
    for member in made {
        members.push(member?)?;
    }
    Ok(members)
}

/// The member that the entry at a place makes: its lead, and what division by all entries leaves of its other terms.
/// It takes a row of its own, and reads what it shares with other members.
fn member(
    alloc: Global,
    problem: &Problem,
    table: &RankTable,
    entries: &Entries,
    firsts: &[Option<Divisor>],
    corner: u32,
    place: u32,
) -> Result<Poly, AllocError>
    requires problem { IsProblem problem.now }
    requires table { table.now ≡ shape_of problem.now }
    requires entries { HaveTerms problem.now entries.now }
    requires firsts { AreFirsts (ranks_of_problem problem.now) (basis_of entries.now) (count (shape_of problem.now)) firsts.now }
    requires corner { corner ≡ corner_of (ranks_of_problem problem.now) (basis_of entries.now) }
    requires place { place < length entries.now }
    ensures { IfOk result (λ f. f ≡ member_of problem.now entries.now place) }
{
    let mut row = vec![in alloc; 0; table.count() as usize]?;
    tidy(problem, table, entries, firsts, corner, place, &mut row);
    poly_of(alloc, table, problem.field(), &row)
}

/// Writes the lead of the entry at a place, and what division leaves of its other terms, into a row.
fn tidy(
    problem: &Problem,
    table: &RankTable,
    entries: &Entries,
    firsts: &[Option<Divisor>],
    corner: u32,
    place: u32,
    row: &mut [u32],
)
    requires problem { IsProblem problem.now }
    requires table { table.now ≡ shape_of problem.now }
    requires entries { HaveTerms problem.now entries.now }
    requires firsts { AreFirsts (ranks_of_problem problem.now) (basis_of entries.now) (count (shape_of problem.now)) firsts.now }
    requires corner { corner ≡ corner_of (ranks_of_problem problem.now) (basis_of entries.now) }
    requires place { place < length entries.now }
    requires row { IsRow problem.now.p (count (shape_of problem.now)) row.old }
    ensures row { IsRow problem.now.p (count (shape_of problem.now)) row.new }
    ensures value { Agree (ranks_of_problem problem.now) (ranks_of_problem problem.now).n (vector_of_row row.new)
        (tidied (ranks_of_problem problem.now) (basis_of entries.now) place) }
{
    let field = problem.field();
    let terms = &entries.get(place as usize).terms;
    let lead = terms.get(0).rank as usize;
    write_terms(row, terms);
    row[lead] = field.sub(row[lead], 1);
    divide(problem, table, entries, firsts, corner, row);
    row[lead] = field.add(row[lead], 1);
}
