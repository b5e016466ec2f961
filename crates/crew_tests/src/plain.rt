//! What a crew makes, beside what the plain program with one worker makes of the same problem.

ghost use Rattle.std.specs.Prelude.{◌≡◌, IfOk};
ghost use Rattle.sparse_poly.specs.Shape.{shape_of};
ghost use Rattle.mora_law.specs.Legal.{Legal};
ghost use Rattle.run_core.specs.Idle.{SettlesAll};

use crate::crew::solve;
use crate::problems::{CURVE, JACOBIAN, NOTHING, SEVENTH, TWICE, Written, problem};
use entry_code::{Entries, Entry, Reads, Terms};
use mono_rank::{RankError, RankTable};
use run_core::{Finished, run_plain};
use sparse_poly::{Poly, PolyTerm, Polys, Problem};
use std::alloc::{AllocError, Global};
use std::cmp::Ordering;
use std::test::Fail;
use std::thread::Threads;
use tail_reduce::reduced;
use workers::OpenGate;

/// What the plain program makes of a problem.
fn plain(alloc: Global, problem: &Problem) -> Result<Finished, AllocError>
    ensures legal { IfOk result (λ f. Legal problem.now f.entries) }
    ensures settled { IfOk result (λ f. SettlesAll problem.now f.entries) }
{
    let _generators = problem.generator_count();
    run_plain(alloc, problem)
}

/// The ranks of the problem's monomials.
fn table_of(alloc: Global, problem: &Problem) -> Result<RankTable, AllocError>
    ensures { IfOk result (λ t. t ≡ shape_of problem.now) }
{
    let _field = problem.field();
    match RankTable::new(alloc, problem.n(), problem.d()) {
        Ok(table) => Ok(table),
        Err(RankError::Memory) => Err(AllocError),
        Err(RankError::TooManyMonomials(_)) => unreachable!(),
    }
}

/// The reduced basis by entries that settle every ticket.
fn basis<R: Threads + Sync>(
    rt: &R,
    alloc: Global,
    problem: &Problem,
    entries: &Entries,
) -> Result<Polys, AllocError>
    requires legal { Legal problem.now entries.now }
    requires settled { SettlesAll problem.now entries.now }
{
    let table = table_of(alloc, problem)?;
    reduced(rt, alloc, problem, &table, entries)
}

fn has_reads(reads: &Reads, wanted: &Reads) -> bool {
    reads.len() == wanted.len() && (0..reads.len()).all(|i| reads.get(i) == wanted.get(i))
}

fn has_terms(terms: &Terms, wanted: &Terms) -> bool {
    terms.len() == wanted.len() && (0..terms.len()).all(|i| terms.get(i) == wanted.get(i))
}

/// Whether an entry has the item, the readings and the terms of another.
fn is_entry(entry: &Entry, wanted: &Entry) -> bool {
    entry.item == wanted.item
        && has_reads(&entry.reads, &wanted.reads)
        && has_terms(&entry.terms, &wanted.terms)
}

/// Whether two lists have the same entries, in the same order.
fn has_entries(entries: &Entries, wanted: &Entries) -> bool {
    entries.len() == wanted.len()
        && (0..entries.len()).all(|i| is_entry(entries.get(i), wanted.get(i)))
}

fn is_term(term: &PolyTerm, wanted: &PolyTerm) -> bool {
    term.coef == wanted.coef
        && term.mono.n() == wanted.mono.n()
        && matches!(term.mono.cmp_ds(&wanted.mono), Ordering::Equal)
}

fn is_poly(f: &Poly, wanted: &Poly) -> bool {
    f.len() == wanted.len()
        && f.terms()
            .iter()
            .zip(wanted.terms())
            .all(|(term, want)| is_term(term, want))
}

/// Whether two lists have the same polynomials, in the same order.
fn has_polys(list: &Polys, wanted: &Polys) -> bool {
    list.len() == wanted.len() && (0..list.len()).all(|i| is_poly(list.get(i), wanted.get(i)))
}

/// The degree and the generators of an example.
const EXAMPLES: &[(u32, &[Written])] = &[
    (6, JACOBIAN),
    (6, TWICE),
    (10, SEVENTH),
    (4, CURVE),
    (4, NOTHING),
];

#[test]
fn one_worker_makes_the_plain_list(rt: HostRuntime) -> Result<(), Fail> {
    for (d, gens) in EXAMPLES {
        let problem = problem(rt.alloc(), *d, gens)?;
        let wanted = plain(rt.alloc(), &problem)?;
        let done = solve(&rt, rt.alloc(), &problem, 1, &OpenGate)?;
        assert!(rt;
            has_entries(&done.entries, &wanted.entries),
            "modulo degree {d} + 1"
        );
        assert!(rt; wanted.reductions.len() == 1 && done.reductions.len() == 1);
        assert_eq!(rt; done.reductions.get(0), wanted.reductions.get(0));
    }
    Ok(())
}

#[test]
fn any_number_of_workers_leaves_the_plain_basis(rt: HostRuntime) -> Result<(), Fail> {
    for (d, gens) in EXAMPLES {
        let problem = problem(rt.alloc(), *d, gens)?;
        let alone = plain(rt.alloc(), &problem)?;
        let wanted = basis(&rt, rt.alloc(), &problem, &alone.entries)?;
        for workers in [1, 2, 8, 16] {
            let done = solve(&rt, rt.alloc(), &problem, workers, &OpenGate)?;
            let made = basis(&rt, rt.alloc(), &problem, &done.entries)?;
            assert!(rt;
                has_polys(&made, &wanted),
                "{workers} workers, modulo degree {d} + 1"
            );
        }
    }
    Ok(())
}
