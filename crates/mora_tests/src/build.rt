//! Values in x and y that tests are written with.

ghost use Rattle.std.specs.Prelude.{◌≡◌, [], ◌∷◌, ◌++◌, IfOk, OnOk};
ghost use Rattle.mora_law.specs.Examples.{entry};

use entry_code::{Entries, Entry, Item, Reading, Reads, Term, Terms};
use local_order::Mono;
use sparse_poly::{Poly, PolyTerm, Polys};
use std::alloc::{AllocError, Global};
use std::test::Fail;

/// The exponents of x and y in a term, and its coefficient.
pub type Written = ([u16; 2], u32);

/// A coefficient times a monomial in x and y.
pub fn term(x: u16, y: u16, coef: u32) -> Result<PolyTerm, Fail>
    ensures { IfOk result (λ t. t ≡ record { mono = x ∷ y ∷ []; coef = coef }) }
{
    Ok(PolyTerm {
        mono: Mono::new(&[x, y]).ok_or("no monomial")?,
        coef,
    })
}

/// Whether these are the polynomials.
pub fn are_same(list: &Polys, wanted: &[&[Written]]) -> bool {
    list.len() == wanted.len() && (0..list.len()).all(|i| is_same(list.get(i), wanted[i]))
}

/// Whether a polynomial has these terms.
fn is_same(f: &Poly, terms: &[Written]) -> bool {
    f.len() == terms.len()
        && f.terms()
            .iter()
            .zip(terms)
            .all(|(t, want)| is_term(t, want))
}

fn is_term(term: &PolyTerm, want: &Written) -> bool {
    let mono = &term.mono;
    term.coef == want.1 && mono.n() == 2 && mono.exp(0) == want.0[0] && mono.exp(1) == want.0[1]
}

/// The term of a rank.
pub fn ranked(rank: u32, coef: u32) -> Term
    ensures { result ≡ record { rank = rank; coef = coef } }
{
    Term { rank, coef }
}

/// Puts the entry with this item, these readings and these terms behind the others.
pub fn add_entry(
    alloc: Global,
    entries: &mut Entries,
    item: Item,
    reads: &[Reading],
    terms: &[Term],
) -> Result<(), AllocError>
    ensures { OnOk result (entries.new ≡ entries.old ++ entry item reads.now terms.now ∷ []) }
{
    let mut made = Entry::room(alloc, 28)?;
    made.item = item;
    add_reads(&mut made.reads, reads)?;
    add_terms(&mut made.terms, terms)?;
    entries.push(made)
}

/// Puts readings behind those that are there.
fn add_reads(into: &mut Reads, reads: &[Reading]) -> Result<(), AllocError>
    ensures { OnOk result (into.new.list ≡ into.old.list ++ reads.now) }
{
    for reading in reads {
        into.push(*reading)?;
    }
    Ok(())
}

/// Puts terms behind those that are there.
fn add_terms(into: &mut Terms, terms: &[Term]) -> Result<(), AllocError>
    ensures { OnOk result (into.new.list ≡ into.old.list ++ terms.now) }
{
    for term in terms {
        into.push(*term)?;
    }
    Ok(())
}
