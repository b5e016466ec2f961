//! Runs that were worked out by hand, modulo 32003.

use crate::problems::Written;
use crate::trial::Trial;
use entry_code::{Entry, Item};
use mora_law::StepEnd;
use std::alloc::Global;
use std::test::Fail;

/// Pairs of numbers: ranks and coefficients, or how many entries were known and corners.
type Pairs<'a> = &'a [(u32, u32)];

/// What a worked example calls, and what it wants as the answer.
#[derive(Clone, Copy)]
enum Call<'a> {
    /// Learns the entry with these terms.
    Learn(Pairs<'a>),
    /// Begins the run of a generator.
    Generator(u32),
    /// Begins the run of a pair.
    Pair(u32, u32),
    /// A step with so many known entries and this corner, and how it ends.
    Step(u32, u32, StepEnd),
    /// The terms and the readings of the draft.
    Draft(Pairs<'a>, Pairs<'a>),
    /// So many readings are in the record.
    Readings(usize),
}

/// Whether these are the terms of an entry.
fn has_terms(entry: &Entry, terms: Pairs) -> bool {
    if entry.terms.len() != terms.len() {
        return false;
    }
    for (i, (rank, coef)) in terms.iter().enumerate() {
        let term = entry.terms.get(i);
        if term.rank != *rank || term.coef != *coef {
            return false;
        }
    }
    true
}

/// Whether these are the readings of an entry.
fn has_reads(entry: &Entry, reads: Pairs) -> bool {
    if entry.reads.len() != reads.len() {
        return false;
    }
    for (i, (known, corner)) in reads.iter().enumerate() {
        let reading = entry.reads.get(i);
        if reading.known != *known || reading.corner != *corner {
            return false;
        }
    }
    true
}

/// One step, which is to end so. It is open after it unless it ends with Zero, and tells how it ended.
fn step(trial: &mut Trial, known: u32, corner: u32, end: StepEnd) -> Result<bool, Fail> {
    let ended = trial.step(known, corner)?;
    let mora = trial.mora();
    Ok(ended == end && mora.end() == Some(end) && mora.is_open() == (end != StepEnd::Zero))
}

/// Whether the draft has these terms and readings.
fn drafts(trial: &Trial, terms: Pairs, reads: Pairs) -> Result<bool, Fail> {
    let draft = trial.draft()?;
    Ok(has_terms(draft, terms) && has_reads(draft, reads))
}

/// One call, and whether its answer is the one that is wanted.
fn answers(alloc: Global, trial: &mut Trial, call: Call) -> Result<bool, Fail> {
    match call {
        Call::Learn(terms) => {
            trial.learn(alloc, terms)?;
            Ok(true)
        }
        Call::Generator(g) => {
            trial.start(Item::Generator(g))?;
            Ok(trial.mora().is_open())
        }
        Call::Pair(i, j) => {
            trial.start(Item::Pair(i, j))?;
            Ok(trial.mora().is_open())
        }
        Call::Step(known, corner, end) => step(trial, known, corner, end),
        Call::Draft(terms, reads) => drafts(trial, terms, reads),
        Call::Readings(count) => Ok(trial.mora().readings().len() == count),
    }
}

/// All calls in turn. It answers the number of the first whose answer isn't the one that is wanted.
fn play(alloc: Global, trial: &mut Trial, calls: &[Call]) -> Result<Option<usize>, Fail> {
    for (i, call) in calls.iter().enumerate() {
        if !answers(alloc, trial, *call)? {
            return Ok(Some(i));
        }
    }
    Ok(None)
}

/// A worked example.
#[derive(Clone, Copy)]
struct Example<'a> {
    n: u32,
    d: u32,
    gens: &'a [Written<'a>],
    calls: &'a [Call<'a>],
}

// x - x^2 - y^3 and x
const KEEPING: &[Written] = &[
    &[(&[1, 0], 1), (&[2, 0], 32002), (&[0, 3], 32002)],
    &[(&[1, 0], 1)],
];
// x^2, y^2 and x^2 + x*y + x^3
const CUTTING: &[Written] = &[
    &[(&[2, 0], 1)],
    &[(&[0, 2], 1)],
    &[(&[2, 0], 1), (&[1, 1], 1), (&[3, 0], 1)],
];

const EXAMPLES: &[Example] = &[
    // the first generator is stuck where nothing is known; the first step from x keeps x, and the second takes it: x goes to
    // x^2 + y^3 and to y^3
    Example {
        n: 2,
        d: 4,
        gens: KEEPING,
        calls: &[
            Call::Generator(0),
            Call::Step(0, 15, StepEnd::Stuck),
            Call::Draft(&[(1, 1), (3, 32002), (9, 32002)], &[(0, 15)]),
            Call::Learn(&[(1, 1), (3, 32002), (9, 32002)]),
            Call::Generator(1),
            Call::Step(1, 15, StepEnd::Reduced),
            Call::Step(1, 15, StepEnd::Reduced),
            Call::Step(1, 15, StepEnd::Stuck),
            Call::Draft(&[(9, 1)], &[(1, 15), (1, 15), (1, 15)]),
            Call::Readings(3),
        ],
    },
    // a corner that another has lowered cuts x^3, and in mid-run y^2 is learnt
    Example {
        n: 2,
        d: 4,
        gens: CUTTING,
        calls: &[
            Call::Learn(&[(3, 1)]),
            Call::Generator(2),
            Call::Step(1, 5, StepEnd::Reduced),
            Call::Learn(&[(5, 1)]),
            Call::Step(2, 5, StepEnd::Stuck),
            Call::Draft(&[(4, 1)], &[(1, 5), (2, 5)]),
        ],
    },
    // a stuck reading that is followed by another leaves the record
    Example {
        n: 2,
        d: 4,
        gens: CUTTING,
        calls: &[
            Call::Generator(2),
            Call::Step(0, 15, StepEnd::Stuck),
            Call::Draft(&[(3, 1), (4, 1), (6, 1)], &[(0, 15)]),
            Call::Learn(&[(3, 1)]),
            Call::Step(1, 15, StepEnd::Reduced),
            Call::Readings(1),
            Call::Step(1, 15, StepEnd::Stuck),
            Call::Draft(&[(4, 1), (6, 1)], &[(1, 15), (1, 15)]),
        ],
    },
    // x - x^2 is reduced by itself
    Example {
        n: 1,
        d: 3,
        gens: &[&[(&[1], 1), (&[2], 32002)]],
        calls: &[
            Call::Learn(&[(1, 1), (2, 32002)]),
            Call::Generator(0),
            Call::Step(1, 4, StepEnd::Reduced),
            Call::Step(1, 4, StepEnd::Zero),
        ],
    },
    // the pair of x - y^3 and y^2 + 5x^3 begins with y^2 * (x - y^3) - x * (y^2 + 5x^3) = -5x^4
    Example {
        n: 2,
        d: 4,
        gens: &[],
        calls: &[
            Call::Learn(&[(1, 1), (9, 32002)]),
            Call::Learn(&[(5, 1), (6, 5)]),
            Call::Pair(0, 1),
            Call::Step(2, 0, StepEnd::Zero),
            Call::Pair(0, 1),
            Call::Step(2, 15, StepEnd::Reduced),
            Call::Step(2, 15, StepEnd::Zero),
        ],
    },
];

#[test]
fn worked_runs(rt: HostRuntime) -> Result<(), Fail> {
    for example in EXAMPLES {
        let mut trial = Trial::of(rt.alloc(), example.n, example.d, example.gens)?;
        assert_eq!(rt; play(rt.alloc(), &mut trial, example.calls)?, None);
    }
    Ok(())
}

// What isn't the entry of a monic polynomial: no terms, ranks that fall or are beyond degree 4, 0 and 32003 as coefficients,
// and a first coefficient that isn't 1.
const REFUSED: &[Pairs] = &[
    &[],
    &[(3, 1), (2, 1)],
    &[(3, 1), (3, 1)],
    &[(3, 1), (15, 1)],
    &[(3, 1), (4, 0)],
    &[(3, 1), (4, 32003)],
    &[(3, 2), (4, 1)],
];

#[test]
fn only_monic_entries_are_accepted(rt: HostRuntime) -> Result<(), Fail> {
    let trial = Trial::of(rt.alloc(), 2, 4, &[])?;
    for terms in REFUSED {
        assert!(rt; !trial.accepts(rt.alloc(), terms)?);
    }
    assert!(rt; trial.accepts(rt.alloc(), &[(3, 1), (4, 32002), (14, 1)])?);
    Ok(())
}
