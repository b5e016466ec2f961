//! The reduced basis that the entries make, and whether polynomials are its members.

ghost use Rattle.std.specs.Prelude.{◌≡◌, ◌↔◌, ◌<◌, length, All, IfOk, IsTrue, MatchOption};
ghost use Rattle.sparse_poly.specs.Ideal.{IsProblem};
ghost use Rattle.mora_law.specs.Ring.{ranks_of_problem};
ghost use Rattle.mora_law.specs.Entries.{basis_of, terms_of, poly_term, poly_of_terms, corner};
ghost use Rattle.mora_law.specs.Basis.{divides_other, is_minimal, minimal_with, tidied};
ghost use Rattle.cert_check.specs.Sparse.{HasTable, AreEntries, AreInRing};
ghost use Rattle.cert_check.specs.Answers.{ArePlaces, HasMembers, IsWrongMember};

use crate::division::divide;
use crate::places::{is_same, lead_of, quotient_rank};
use crate::reduce::subtract;
use crate::sparse::Sparse;
use entry_code::{Entries, Term, Terms};
use mono_rank::RankTable;
use sparse_poly::{Poly, PolyTerm, Polys, Problem};
use std::alloc::{AllocError, Global};

/// Whether lead `j`, which isn't the `k`-th itself, divides the `k`-th.
fn divides_other(
    problem: &Problem,
    table: &RankTable,
    entries: &Entries,
    k: usize,
    j: usize,
) -> bool
    requires problem { IsProblem problem.now }
    requires table { HasTable problem.now table.now }
    requires stored { AreEntries problem.now entries.now }
    requires own { k < length entries.now }
    requires other { j < length entries.now }
    ensures { result ≡ divides_other (ranks_of_problem problem.now) (basis_of entries.now) k j }
{
    if j == k {
        return false;
    }
    let own = lead_of(problem, entries, k);
    let other = lead_of(problem, entries, j);
    quotient_rank(problem, table, own, other).is_some()
}

/// Whether no other lead divides the `k`-th.
fn is_minimal(problem: &Problem, table: &RankTable, entries: &Entries, k: usize) -> bool
    requires problem { IsProblem problem.now }
    requires table { HasTable problem.now table.now }
    requires stored { AreEntries problem.now entries.now }
    requires own { k < length entries.now }
    ensures { result ≡ is_minimal (ranks_of_problem problem.now) (basis_of entries.now) k }
{
    for j in 0..entries.len() {
        if divides_other(problem, table, entries, k, j) {
            return false;
        }
    }
    true
}

/// The first entry whose lead has rank `r` and is divided by no other lead.
fn minimal_with(problem: &Problem, table: &RankTable, entries: &Entries, r: u32) -> Option<usize>
    requires problem { IsProblem problem.now }
    requires table { HasTable problem.now table.now }
    requires stored { AreEntries problem.now entries.now }
    ensures { result ≡ minimal_with (ranks_of_problem problem.now) (basis_of entries.now) r }
{
    for k in 0..entries.len() {
        if lead_of(problem, entries, k) == r && is_minimal(problem, table, entries, k) {
            return Some(k);
        }
    }
    None
}

/// The entries that make the members of the basis, the greatest lead first.
pub(crate) fn minimal_places(
    alloc: Global,
    problem: &Problem,
    table: &RankTable,
    entries: &Entries,
) -> Result<Vec<usize>, AllocError>
    requires problem { IsProblem problem.now }
    requires table { HasTable problem.now table.now }
    requires stored { AreEntries problem.now entries.now }
    ensures { IfOk result (λ ks. ArePlaces problem.now entries.now ks.items) }
{
    let mut places = Vec::new(alloc);
    for r in 0..table.count() {
        if let Some(k) = minimal_with(problem, table, entries, r) {
            places.push(k)?;
        }
    }
    Ok(places)
}

/// The terms of the lead of entry `k` and of what plain division by all entries leaves of its other terms.
fn tidied(
    alloc: Global,
    problem: &Problem,
    table: &RankTable,
    entries: &Entries,
    lowest: u32,
    k: usize,
) -> Result<Terms, AllocError>
    requires problem { IsProblem problem.now }
    requires table { HasTable problem.now table.now }
    requires stored { AreEntries problem.now entries.now }
    requires corner { lowest ≡ corner problem.now entries.now }
    requires place { k < length entries.now }
    ensures ring { IfOk result (λ ts. AreInRing problem.now ts.list) }
    ensures value { IfOk result (λ ts. ts.list ≡ terms_of (ranks_of_problem problem.now) (tidied (ranks_of_problem problem.now) (basis_of entries.now) k)) }
{
    let field = problem.field();
    let minus = field.neg(1);
    let lead = lead_of(problem, entries, k);
    let mut h = Sparse::new(alloc);
    subtract(
        problem,
        table,
        &mut h,
        minus,
        0,
        &entries.get(k).terms,
        table.count(),
    )?;
    h.add_at(field, lead, minus)?;
    divide(problem, table, entries, lowest, &mut h)?;
    h.add_at(field, lead, 1)?;
    let terms = h.terms(alloc)?;
    Ok(terms)
}

/// Whether a term of a polynomial is this one by rank.
fn is_term(problem: &Problem, table: &RankTable, t: &PolyTerm, u: Term) -> bool
    requires problem { IsProblem problem.now }
    requires table { HasTable problem.now table.now }
    requires rank { u.rank < (ranks_of_problem problem.now).n }
    requires ring { length t.now.mono ≡ problem.now.n }
    ensures { IsTrue result ↔ (t.now ≡ poly_term problem.now u) }
{
    let _problem = problem;
    if t.coef != u.coef {
        return false;
    }
    is_same(&t.mono, &table.mono(u.rank))
}

/// Whether a polynomial has these terms.
fn is_poly(problem: &Problem, table: &RankTable, f: &Poly, terms: &Terms) -> bool
    requires problem { IsProblem problem.now }
    requires table { HasTable problem.now table.now }
    requires ring { AreInRing problem.now terms.now.list }
    requires variables { f.now.n ≡ problem.now.n }
    ensures { IsTrue result ↔ (f.now.terms ≡ poly_of_terms problem.now terms.now.list) }
{
    let count = f.terms().len();
    if count != terms.len() {
        return false;
    }
    for k in 0..count {
        let t = f.get(k);
        let u = terms.get(k);
        if !is_term(problem, table, &t, u) {
            return false;
        }
    }
    true
}

/// The first polynomial that isn't the member of the basis at its place, where there are as many as members.
pub(crate) fn wrong_member(
    alloc: Global,
    problem: &Problem,
    table: &RankTable,
    entries: &Entries,
    lowest: u32,
    places: &[usize],
    polys: &Polys,
) -> Result<Option<usize>, AllocError>
    requires problem { IsProblem problem.now }
    requires table { HasTable problem.now table.now }
    requires stored { AreEntries problem.now entries.now }
    requires corner { lowest ≡ corner problem.now entries.now }
    requires places { ArePlaces problem.now entries.now places.now }
    requires all { length places.now ≡ length polys.now }
    requires variables { All (λ f. f.n ≡ problem.now.n) polys.now }
    ensures { IfOk result (λ o. MatchOption o (HasMembers problem.now entries.now polys.now (length polys.now)) (IsWrongMember problem.now entries.now polys.now)) }
{
    for k in 0..places.len() {
        let place = places[k];
        let terms = tidied(alloc, problem, table, entries, lowest, place)?;
        let f = polys.get(k);
        if !is_poly(problem, table, f, &terms) {
            return Ok(Some(k));
        }
    }
    Ok(None)
}
