//! The reduced basis of the partial derivatives of x^2*y^2 + x^5 + y^5 modulo degree 7, from four entries with one reading each.

ghost use Rattle.std.specs.Prelude.{◌≡◌, [], ◌∷◌, ◌++◌, IfOk, OnOk};
ghost use Rattle.mora_law.specs.Examples.{reading, entry, curve_problem, curve_entries};

use crate::build::{Written, add_entry, are_same, ranked, term};
use entry_code::{Entries, Item, Reading, Term};
use mono_rank::RankTable;
use prime_field::Field;
use sparse_poly::{Poly, Polys, Problem};
use std::alloc::{AllocError, Global};
use std::test::Fail;
use std::thread::Threads;
use tail_reduce::reduced;

/// 2*x*y^2 + 5*x^4.
fn by_x(alloc: Global, field: &Field) -> Result<Poly, Fail>
    requires { field.now ≡ 32003 }
    ensures { IfOk result (λ f. f ≡ record { n = 2; terms = record { mono = 1 ∷ 2 ∷ []; coef = 2 } ∷ record { mono = 4 ∷ 0 ∷ []; coef = 5 } ∷ [] }) }
{
    let terms = vec![in alloc; term(1, 2, 2)?, term(4, 0, 5)?]?;
    Ok(Poly::from_terms(alloc, field, 2, terms)?)
}

/// 2*x^2*y + 5*y^4.
fn by_y(alloc: Global, field: &Field) -> Result<Poly, Fail>
    requires { field.now ≡ 32003 }
    ensures { IfOk result (λ f. f ≡ record { n = 2; terms = record { mono = 2 ∷ 1 ∷ []; coef = 2 } ∷ record { mono = 0 ∷ 4 ∷ []; coef = 5 } ∷ [] }) }
{
    let terms = vec![in alloc; term(2, 1, 2)?, term(0, 4, 5)?]?;
    Ok(Poly::from_terms(alloc, field, 2, terms)?)
}

/// Both, modulo degree 7.
fn problem(alloc: Global) -> Result<Problem, Fail>
    ensures { IfOk result (λ p. p ≡ curve_problem) }
{
    let field = Field::of(32003).ok_or("no field")?;
    let mut gens = Polys::new(alloc);
    gens.push(by_x(alloc, &field)?)?;
    gens.push(by_y(alloc, &field)?)?;
    Ok(Problem::new(field, 2, 6, gens))
}

/// Puts the entry of an item with one reading, which knows so many entries, behind the others.
fn add(
    alloc: Global,
    entries: &mut Entries,
    item: Item,
    known: u32,
    terms: &[Term],
) -> Result<(), AllocError>
    ensures { OnOk result (entries.new ≡ entries.old ++ entry item (reading known 28 ∷ []) terms.now ∷ []) }
{
    add_entry(
        alloc,
        entries,
        item,
        &[Reading { known, corner: 28 }],
        terms,
    )
}

/// The entries of a run of the criterion: the generators made monic, x^5 - y^5 and y^6.
fn entries(alloc: Global) -> Result<Entries, AllocError>
    ensures { IfOk result (λ e. e ≡ curve_entries) }
{
    // x*y^2 and x^2*y have the ranks 8 and 7.
    let mut entries = Entries::new(alloc);
    let by_x = [ranked(8, 1), ranked(10, 16004)];
    let by_y = [ranked(7, 1), ranked(14, 16004)];
    let pair = [ranked(15, 1), ranked(20, 32002)];
    add(alloc, &mut entries, Item::Generator(0), 0, &by_x)?;
    add(alloc, &mut entries, Item::Generator(1), 1, &by_y)?;
    add(alloc, &mut entries, Item::Pair(0, 1), 2, &pair)?;
    add(alloc, &mut entries, Item::Pair(1, 2), 3, &[ranked(27, 1)])?;
    Ok(entries)
}

/// The reduced basis.
fn basis<R: Threads + Sync>(rt: &R, alloc: Global) -> Result<Polys, Fail> {
    let problem = problem(alloc)?;
    let table = RankTable::new(alloc, 2, 6)?;
    let entries = entries(alloc)?;
    Ok(reduced(rt, alloc, &problem, &table, &entries)?)
}

const BASIS: &[&[Written]] = &[
    &[([2, 1], 1), ([0, 4], 16004)],
    &[([1, 2], 1), ([4, 0], 16004)],
    &[([5, 0], 1), ([0, 5], 32002)],
    &[([0, 6], 1)],
];

#[test]
fn leads_fall(rt: HostRuntime) -> Result<(), Fail> {
    let basis = basis(&rt, rt.alloc())?;
    assert!(rt; are_same(&basis, BASIS));
    Ok(())
}
