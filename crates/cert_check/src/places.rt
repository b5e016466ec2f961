//! Quotients and least common multiples by rank, and the first lead that divides.

ghost use Rattle.std.specs.Prelude.{◌≡◌, ◌<◌, ◌≤◌, ℕ, length, IsTrue, ◌↔◌, Some, None, MatchOption};
ghost use Rattle.sparse_poly.specs.Ideal.{IsProblem};
ghost use Rattle.entry_code.specs.Entry.{entry_at};
ghost use Rattle.rank_algebra.specs.Division.{first_of, first_lead};
ghost use Rattle.mora_law.specs.Ring.{ranks_of_problem};
ghost use Rattle.mora_law.specs.Entries.{basis_of};
ghost use Rattle.cert_check.specs.Sparse.{HasTable, AreEntries};

use entry_code::Entries;
use local_order::Mono;
use mono_rank::RankTable;
use sparse_poly::Problem;
use std::cmp::Ordering;

/// The place of an entry, and the rank of the monomial by which its lead is to be multiplied.
#[derive(Clone, Copy)]
pub(crate) struct Hit {
    pub(crate) place: usize,
    pub(crate) cofactor: u32,
}

/// The rank of the quotient of two monomials, where there is one.
pub(crate) fn quotient_rank(problem: &Problem, table: &RankTable, r: u32, a: u32) -> Option<u32>
    requires problem { IsProblem problem.now }
    requires table { HasTable problem.now table.now }
    requires r { r < (ranks_of_problem problem.now).n }
    requires a { a < (ranks_of_problem problem.now).n }
    ensures { result ≡ (ranks_of_problem problem.now).quotient r a }
{
    let _problem = problem;
    table.quotient_rank(r, a)
}

/// The rank of what the monomial of rank `a` lacks to its least common multiple with that of rank `b`.
pub(crate) fn cofactor_rank(problem: &Problem, table: &RankTable, a: u32, b: u32) -> u32
    requires problem { IsProblem problem.now }
    requires table { HasTable problem.now table.now }
    requires a { a < (ranks_of_problem problem.now).n }
    requires b { b < (ranks_of_problem problem.now).n }
    ensures value { result ≡ (ranks_of_problem problem.now).cofactor a b }
    ensures small { result < (ranks_of_problem problem.now).n }
{
    let _problem = problem;
    table.cofactor_rank(a, b)
}

/// The rank of the lead of an entry.
pub(crate) fn lead_of(problem: &Problem, entries: &Entries, k: usize) -> u32
    requires place { k < length entries.now }
    requires stored { AreEntries problem.now entries.now }
    ensures value { result ≡ (basis_of entries.now).lead k }
    ensures small { result < (ranks_of_problem problem.now).n }
{
    let _problem = problem;
    entries.get(k).terms.get(0).rank
}

/// Of the first `known` entries the first whose lead divides the monomial of rank `r`.
pub(crate) fn first_divisor(
    problem: &Problem,
    table: &RankTable,
    entries: &Entries,
    known: usize,
    r: u32,
) -> Option<Hit>
    requires problem { IsProblem problem.now }
    requires table { HasTable problem.now table.now }
    requires stored { AreEntries problem.now entries.now }
    requires known { known ≤ length entries.now }
    requires r { r < (ranks_of_problem problem.now).n }
    ensures hit { MatchOption result
        (first_lead (ranks_of_problem problem.now) (first_of known (basis_of entries.now)) r ≡ None)
        (λ h. first_lead (ranks_of_problem problem.now) (first_of known (basis_of entries.now)) r
        ≡ Some (record { place = h.place; cofactor = h.cofactor })) }
{
    for k in 0..known {
        let lead = lead_of(problem, entries, k);
        if let Some(cofactor) = quotient_rank(problem, table, r, lead) {
            return Some(Hit { place: k, cofactor });
        }
    }
    None
}

/// Whether two monomials are the same.
pub(crate) fn is_same(a: &Mono, b: &Mono) -> bool
    requires { length a.now ≡ length b.now }
    ensures { IsTrue result ↔ (a.now ≡ b.now) }
{
    a.cmp_ds(b) == Ordering::Equal
}
