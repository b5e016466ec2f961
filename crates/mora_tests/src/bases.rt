//! The reduced basis of x - x^2 - y^3 and x modulo degree 5, from two entries. The run of the second one takes x itself from the
//! intermediates.

ghost use Rattle.std.specs.Prelude.{◌≡◌, [], ◌∷◌, IfOk};
ghost use Rattle.mora_law.specs.Examples.{kept_problem, kept_entries};

use crate::build::{add_entry, are_same, ranked, term};
use entry_code::{Entries, Item, Reading};
use mono_rank::RankTable;
use prime_field::Field;
use sparse_poly::{Poly, Polys, Problem};
use std::alloc::{AllocError, Global};
use std::test::Fail;
use std::thread::Threads;
use tail_reduce::reduced;

/// x - x^2 - y^3.
fn curve(alloc: Global, field: &Field) -> Result<Poly, Fail>
    requires { field.now ≡ 32003 }
    ensures { IfOk result (λ f. f ≡ record {
      n = 2;
      terms = record { mono = 1 ∷ 0 ∷ []; coef = 1 } ∷ record { mono = 2 ∷ 0 ∷ []; coef = 32002 } ∷ record { mono = 0 ∷ 3 ∷ []; coef = 32002 } ∷ [];
    }) }
{
    let terms = vec![in alloc; term(1, 0, 1)?, term(2, 0, 32002)?, term(0, 3, 32002)?]?;
    Ok(Poly::from_terms(alloc, field, 2, terms)?)
}

/// x.
fn line(alloc: Global, field: &Field) -> Result<Poly, Fail>
    requires { field.now ≡ 32003 }
    ensures { IfOk result (λ f. f ≡ record { n = 2; terms = record { mono = 1 ∷ 0 ∷ []; coef = 1 } ∷ [] }) }
{
    let terms = vec![in alloc; term(1, 0, 1)?]?;
    Ok(Poly::from_terms(alloc, field, 2, terms)?)
}

/// Both, modulo degree 5.
fn problem(alloc: Global) -> Result<Problem, Fail>
    ensures { IfOk result (λ p. p ≡ kept_problem) }
{
    let field = Field::of(32003).ok_or("no field")?;
    let mut gens = Polys::new(alloc);
    gens.push(curve(alloc, &field)?)?;
    gens.push(line(alloc, &field)?)?;
    Ok(Problem::new(field, 2, 4, gens))
}

/// x - x^2 - y^3, the first generator as it stands, and y^3, from the second generator by three steps.
fn entries(alloc: Global) -> Result<Entries, AllocError>
    ensures { IfOk result (λ e. e ≡ kept_entries) }
{
    let mut entries = Entries::new(alloc);
    let reading = Reading {
        known: 0,
        corner: 15,
    };
    let terms = [ranked(1, 1), ranked(3, 32002), ranked(9, 32002)];
    add_entry(alloc, &mut entries, Item::Generator(0), &[reading], &terms)?;
    let again = Reading {
        known: 1,
        corner: 15,
    };
    let reads = [again, again, again];
    add_entry(
        alloc,
        &mut entries,
        Item::Generator(1),
        &reads,
        &[ranked(9, 1)],
    )?;
    Ok(entries)
}

/// The reduced basis.
fn basis<R: Threads + Sync>(rt: &R, alloc: Global) -> Result<Polys, Fail> {
    let problem = problem(alloc)?;
    let table = RankTable::new(alloc, 2, 4)?;
    let entries = entries(alloc)?;
    Ok(reduced(rt, alloc, &problem, &table, &entries)?)
}

#[test]
fn tails_are_reduced(rt: HostRuntime) -> Result<(), Fail> {
    let basis = basis(&rt, rt.alloc())?;
    assert!(rt; are_same(&basis, &[&[([1, 0], 1)], &[([0, 3], 1)]]));
    Ok(())
}
