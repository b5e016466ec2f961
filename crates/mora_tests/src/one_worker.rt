//! What one worker computes.

use crate::problems::{Written, problem};
use entry_code::{Entry, Item, Reading, Reads, Term, Terms};
use mono_rank::RankTable;
use run_core::{Finished, run_plain};
use sparse_poly::Problem;
use std::alloc::Global;
use std::test::Fail;

/// The computation for these generators in x and y.
fn run(alloc: Global, d: u32, gens: &[Written]) -> Result<Finished, Fail> {
    let problem = plane_problem(alloc, d, gens)?;
    if problem.gens().len() > 64 {
        return Err("too many generators")?;
    }
    Ok(run_plain(alloc, &problem)?)
}

/// The problem of these generators in x and y.
fn plane_problem(alloc: Global, d: u32, gens: &[Written]) -> Result<Problem, Fail> {
    if d < 1 || d > 255 {
        return Err("beyond the limits")?;
    }
    let table = RankTable::new(alloc, 2, d)?;
    problem(alloc, &table, 2, d, gens)
}

/// Whether these are the readings.
fn has_reads(reads: &Reads, want: &[(u32, u32)]) -> bool {
    reads.len() == want.len() && (0..reads.len()).all(|i| is_reading(reads.get(i), want[i]))
}

fn is_reading(reading: Reading, want: (u32, u32)) -> bool {
    (reading.known, reading.corner) == want
}

/// Whether these are the terms, by rank and coefficient.
fn has_terms(terms: &Terms, want: &[(u32, u32)]) -> bool {
    terms.len() == want.len() && (0..terms.len()).all(|i| is_term(terms.get(i), want[i]))
}

fn is_term(term: Term, want: (u32, u32)) -> bool {
    (term.rank, term.coef) == want
}

/// An item, and the readings and the terms of an entry.
type Made<'a> = (Item, &'a [(u32, u32)], &'a [(u32, u32)]);

/// Whether an entry is that of an item, with these readings and terms.
fn is_entry(entry: &Entry, want: &Made) -> bool {
    entry.item == want.0 && has_reads(&entry.reads, want.1) && has_terms(&entry.terms, want.2)
}

/// Whether these are the entries, and this is the one count of steps that reduce.
fn has_made(done: &Finished, entries: &[Made], reductions: u64) -> bool {
    done.entries.len() == entries.len()
        && (0..entries.len()).all(|i| is_entry(done.entries.get(i), &entries[i]))
        && done.reductions.len() == 1
        && done.reductions.get(0) == reductions
}

/// The degree, the generators, the entries and the count of an example.
type Example<'a> = (u32, &'a [Written<'a>], &'a [Made<'a>], u64);

const EXAMPLES: &[Example] = &[
    // pairs are run and skipped: 2*x*y^2 + 5*x^4 and 2*x^2*y + 5*y^4, of which four pairs make no entry
    (
        6,
        &[&[(&[1, 2], 2), (&[4, 0], 5)], &[(&[2, 1], 2), (&[0, 4], 5)]],
        &[
            (Item::Generator(0), &[(0, 28)], &[(8, 1), (10, 16004)]),
            (Item::Generator(1), &[(1, 28)], &[(7, 1), (14, 16004)]),
            (Item::Pair(0, 1), &[(2, 28)], &[(15, 1), (20, 32002)]),
            (Item::Pair(1, 2), &[(3, 28)], &[(27, 1)]),
        ],
        0,
    ),
    // an intermediate is used: x - x^2 - y^3 and x
    (
        4,
        &[
            &[(&[1, 0], 1), (&[2, 0], 32002), (&[0, 3], 32002)],
            &[(&[1, 0], 1)],
        ],
        &[
            (
                Item::Generator(0),
                &[(0, 15)],
                &[(1, 1), (3, 32002), (9, 32002)],
            ),
            (Item::Generator(1), &[(1, 15), (1, 15), (1, 15)], &[(9, 1)]),
        ],
        2,
    ),
    // zero makes no entry
    (4, &[&[]], &[], 0),
];

#[test]
fn entries_are_made(rt: HostRuntime) -> Result<(), Fail> {
    for (d, gens, entries, reductions) in EXAMPLES {
        let done = run(rt.alloc(), *d, gens)?;
        assert!(rt;
            has_made(&done, entries, *reductions),
            "modulo degree {d} + 1"
        );
    }
    Ok(())
}
