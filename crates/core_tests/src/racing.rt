//! A racing corner: the second seat knows x^2 alone, and reads the corner of x^2 and y^2. Its entry x*y is legal all the same.

use crate::problems::Ideal;
use crate::trial::Trial;
use entry_code::{Entries, Entry, Item, Reads, Term, Terms};
use run_core::{CoreState, Event};
use std::alloc::Global;
use std::test::Fail;

/// x^2, y^2, x^2+x*y+x^3 and once more x^2, modulo degree 5.
const RACING: Ideal = Ideal {
    prime: 32003,
    n: 2,
    d: 4,
    gens: &[
        &[(&[2, 0], 1)],
        &[(&[0, 2], 1)],
        &[(&[2, 0], 1), (&[1, 1], 1), (&[3, 0], 1)],
        &[(&[2, 0], 1)],
    ],
    basis: &[&[(&[2, 0], 1)], &[(&[1, 1], 1)], &[(&[0, 2], 1)]],
};

/// A seat and its event, and how many entries there are after it, the corner and the ticket number.
type Row = (u32, Event, usize, u32, u64);

const SCHEDULE: [Row; 18] = [
    (0, Event::Split(1), 0, 15, 0),
    (0, Event::Claim, 0, 15, 1),
    (0, Event::Corner, 0, 15, 1),
    (0, Event::Publish, 1, 15, 1),
    (1, Event::Look, 1, 15, 1),
    (0, Event::Claim, 1, 15, 2),
    (0, Event::Corner, 1, 15, 2),
    (0, Event::Publish, 2, 15, 2),
    (1, Event::Claim, 2, 15, 2),
    (1, Event::Claim, 2, 15, 3),
    (0, Event::Claim, 2, 15, 3),
    (0, Event::Claim, 2, 15, 4),
    (0, Event::Corner, 2, 5, 4),
    (0, Event::Corner, 2, 5, 4),
    (1, Event::Corner, 2, 5, 4),
    (1, Event::Look, 2, 5, 4),
    (1, Event::Corner, 2, 5, 4),
    (1, Event::Publish, 3, 5, 4),
];

/// The item of an entry, its readings, and the rank of its one term, whose coefficient is 1.
type Made = (Item, &'static [(u32, u32)], u32);

const ENTRIES: [Made; 3] = [
    (Item::Generator(0), &[(0, 15)], 3),
    (Item::Generator(1), &[(1, 15)], 5),
    (Item::Generator(2), &[(1, 5), (2, 5)], 4),
];

/// Whether these are the readings.
fn are_reads(reads: &Reads, wanted: &[(u32, u32)]) -> bool {
    if reads.len() != wanted.len() {
        return false;
    }
    for i in 0..wanted.len() {
        let reading = reads.get(i);
        if reading.known != wanted[i].0 || reading.corner != wanted[i].1 {
            return false;
        }
    }
    true
}

/// Whether this is the term of a rank alone, with the coefficient 1.
fn is_monomial(terms: &Terms, rank: u32) -> bool {
    terms.len() == 1 && terms.get(0) == Term { rank, coef: 1 }
}

/// Whether these are the entries of the example.
fn are_made(entries: &Entries) -> bool {
    if entries.len() != ENTRIES.len() {
        return false;
    }
    for i in 0..ENTRIES.len() {
        let entry = entries.get(i);
        let (item, reads, rank) = ENTRIES[i];
        if entry.item != item
            || !are_reads(&entry.reads, reads)
            || !is_monomial(&entry.terms, rank)
        {
            return false;
        }
    }
    true
}

/// How many entries there are, the corner and the ticket number.
fn words(core: &CoreState) -> (usize, u32, u64) {
    (core.entries().len(), core.corner(), core.ticket())
}

/// The machine of two workers after the schedule, with what each event leaves compared.
fn race(alloc: Global) -> Result<Trial, Fail> {
    let mut trial = Trial::open(alloc, &RACING.problem(alloc)?, 2)?;
    for (seat, event, entries, corner, ticket) in SCHEDULE {
        if !trial.apply(seat, event)? {
            return Err("an event is refused")?;
        }
        if words(trial.core()) != (entries, corner, ticket) {
            return Err("an event leaves another state")?;
        }
    }
    Ok(trial)
}

#[test]
fn racing_corner(rt: HostRuntime) -> Result<(), Fail> {
    let trial = race(rt.alloc())?;
    assert!(rt; are_made(trial.core().entries()));
    Ok(())
}

#[test]
fn refused_events_change_nothing(rt: HostRuntime) -> Result<(), Fail> {
    let mut trial = race(rt.alloc())?;
    // nothing to publish, and no such seat
    for (seat, event) in [(0, Event::Publish), (7, Event::Claim)] {
        assert!(rt; !trial.apply(seat, event)?);
        assert!(rt; are_made(trial.core().entries()));
        assert_eq!(rt; words(trial.core()), (3, 5, 4));
    }
    Ok(())
}
