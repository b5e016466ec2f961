//! The choice of a reducer.

ghost use Rattle.std.specs.Prelude.{◌≡◌, ◌<◌, ◌≤◌, ◌-◌, ◌++◌, ℕ, List, length, get_or, Option, IsTrue, ◌↔◌};
ghost use Rattle.sparse_poly.specs.Ideal.{IsProblem};
ghost use Rattle.entry_code.specs.Placed.{Placed};
ghost use Rattle.entry_code.specs.declared.term.Term.{Term};
ghost use Rattle.entry_code.specs.Entry.{Entry};
ghost use Rattle.rank_algebra.specs.Vector.{Vector};
ghost use Rattle.mora_law.specs.Ring.{ranks_of_problem};
ghost use Rattle.mora_law.specs.Lead.{ecart};
ghost use Rattle.mora_law.specs.Step.{Reducer, reducer, better, choose, firsts};
ghost use Rattle.mora_law.specs.Entries.{basis_of};
ghost use Rattle.entry_code.specs.Terms.{vector_of_terms};
ghost use Rattle.cert_check.specs.Sparse.{HasTable, AreStored, AreEntries};
ghost use Rattle.cert_check.specs.Replay.{vectors_of, AreKept, terms_at, HasPlace, IsChosen, HasLessEcart};

use crate::places::quotient_rank;
use entry_code::{Entries, Terms};
use mono_rank::RankTable;
use sparse_poly::Problem;

/// Where a reducer stands: among the entries, or among the intermediates.
#[derive(Clone, Copy)]
pub(crate) enum Place {
    Entry(usize),
    Kept(usize),
}

/// Where a reducer stands, the rank of the monomial by which it is to be multiplied, and its ecart.
#[derive(Clone, Copy)]
pub(crate) struct Choice {
    pub(crate) place: Place,
    pub(crate) cofactor: u32,
    pub(crate) ecart: u32,
}

/// The degree of the monomial of one rank less that of another.
pub(crate) fn degree_gap(problem: &Problem, table: &RankTable, low: u32, last: u32) -> u32
    requires problem { IsProblem problem.now }
    requires table { HasTable problem.now table.now }
    requires low { low < (ranks_of_problem problem.now).n }
    requires last { last < (ranks_of_problem problem.now).n }
    requires rises { (ranks_of_problem problem.now).degree low ≤ (ranks_of_problem problem.now).degree last }
    ensures { result ≡ (ranks_of_problem problem.now).degree last - (ranks_of_problem problem.now).degree low }
{
    let _problem = problem;
    table.degree_of(last) - table.degree_of(low)
}

/// The ecart of a polynomial by its terms: ranks go by degree, so its first and its last term tell it.
fn ecart_of(problem: &Problem, table: &RankTable, terms: &Terms) -> u32
    requires problem { IsProblem problem.now }
    requires table { HasTable problem.now table.now }
    requires stored { AreStored problem.now terms.now.list }
    ensures { result ≡ ecart (ranks_of_problem problem.now) (vector_of_terms terms.now.list) }
{
    let first = terms.get(0);
    let last = terms.get(terms.len() - 1);
    degree_gap(problem, table, first.rank, last.rank)
}

/// Whether what was chosen so far has a lesser ecart.
fn has_less_ecart(best: Option<Choice>, ecart: u32) -> bool
    ensures { IsTrue result ↔ HasLessEcart best ecart }
{
    match best {
        Some(choice) => choice.ecart < ecart,
        None => false,
    }
}

/// The better of a polynomial and of what was chosen behind it: the one of less ecart, and the first on a tie.
fn better(
    problem: &Problem,
    table: &RankTable,
    lead: u32,
    terms: &Terms,
    place: Place,
    best: Option<Choice>,
) -> Option<Choice>
    requires problem { IsProblem problem.now }
    requires table { HasTable problem.now table.now }
    requires stored { AreStored problem.now terms.now.list }
    requires lead { lead < (ranks_of_problem problem.now).n }
    ensures { (known kept : ℕ) (at : Place → List Term) (c : Option Reducer) → HasPlace known kept place → at place ≡ terms.now.list
        → IsChosen (ranks_of_problem problem.now) known kept at best c
        → IsChosen (ranks_of_problem problem.now) known kept at result
        (better (ranks_of_problem problem.now) (reducer (ranks_of_problem problem.now) lead (vector_of_terms terms.now.list)) c) }
{
    let first = terms.get(0);
    let Some(cofactor) = quotient_rank(problem, table, lead, first.rank) else {
        return best;
    };
    let ecart = ecart_of(problem, table, terms);
    if has_less_ecart(best, ecart) {
        return best;
    }
    Some(Choice {
        place,
        cofactor,
        ecart,
    })
}

/// The reducer of least ecart among the intermediates, and the first of these.
fn choose_kept(problem: &Problem, table: &RankTable, kept: &[Terms], lead: u32) -> Option<Choice>
    requires problem { IsProblem problem.now }
    requires table { HasTable problem.now table.now }
    requires kept { AreKept problem.now kept.now }
    requires lead { lead < (ranks_of_problem problem.now).n }
    ensures { (entries : List Entry) (known : ℕ)
        → IsChosen (ranks_of_problem problem.now) known (length kept.now) (terms_at entries kept.now) result
        (choose (ranks_of_problem problem.now) lead (vectors_of kept.now)) }
{
    let mut best = None;
    let mut left = kept.len();
    while left > 0 {
        left -= 1;
        best = better(problem, table, lead, &kept[left], Place::Kept(left), best);
    }
    best
}

/// The better of the first `known` entries and of what was chosen behind them.
fn choose_entry(
    problem: &Problem,
    table: &RankTable,
    entries: &Entries,
    known: usize,
    lead: u32,
    behind: Option<Choice>,
) -> Option<Choice>
    requires problem { IsProblem problem.now }
    requires table { HasTable problem.now table.now }
    requires stored { AreEntries problem.now entries.now }
    requires known { known ≤ length entries.now }
    requires lead { lead < (ranks_of_problem problem.now).n }
    ensures { (kept : List (Placed Term)) (vs : List Vector)
        → IsChosen (ranks_of_problem problem.now) known (length kept) (terms_at entries.now kept) behind
        (choose (ranks_of_problem problem.now) lead vs)
        → IsChosen (ranks_of_problem problem.now) known (length kept) (terms_at entries.now kept) result
        (choose (ranks_of_problem problem.now) lead (firsts known 0 (basis_of entries.now).member ++ vs)) }
{
    let mut best = behind;
    let mut left = known;
    while left > 0 {
        left -= 1;
        best = better(
            problem,
            table,
            lead,
            &entries.get(left).terms,
            Place::Entry(left),
            best,
        );
    }
    best
}

/// The reducer of least ecart, entries before intermediates, and the first of these.
pub(crate) fn choose(
    problem: &Problem,
    table: &RankTable,
    entries: &Entries,
    known: usize,
    kept: &[Terms],
    lead: u32,
) -> Option<Choice>
    requires problem { IsProblem problem.now }
    requires table { HasTable problem.now table.now }
    requires stored { AreEntries problem.now entries.now }
    requires known { known ≤ length entries.now }
    requires kept { AreKept problem.now kept.now }
    requires lead { lead < (ranks_of_problem problem.now).n }
    ensures { IsChosen (ranks_of_problem problem.now) known (length kept.now) (terms_at entries.now kept.now) result
        (choose (ranks_of_problem problem.now) lead (firsts known 0 (basis_of entries.now).member ++ vectors_of kept.now)) }
{
    let behind = choose_kept(problem, table, kept, lead);
    choose_entry(problem, table, entries, known, lead, behind)
}
