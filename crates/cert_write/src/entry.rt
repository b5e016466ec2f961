//! The lines of an entry.

ghost use Rattle.std.specs.Prelude.{◌≡◌, ◌++◌, codes, decimal, string_bytes, IfOk, OnOk};
ghost use Rattle.sparse_poly.specs.Shape.{shape_of};
ghost use Rattle.sparse_poly.specs.Poly.{in_variables, IsCanonical};
ghost use Rattle.entry_code.specs.Entry.{entry_of as stored_entry};
ghost use Rattle.text_out.specs.Texts.{Adds};
ghost use Rattle.cert_grammar.specs.Lines.{line_text, text as lines_text};
ghost use Rattle.cert_grammar.specs.Words.{IsPolyOf};
ghost use Rattle.cert_grammar.specs.Cert.{item_line, read_line, reads_lines, entry_lines};
ghost use Rattle.cert_grammar.specs.Certified.{AreTerms, poly_by_rank, entry_of};
ghost use Rattle.cert_write.specs.Parts.{IsWritable};

use crate::lines::{push_number, push_poly_line};
use cert_grammar::Ring;
use entry_code::{Entry, Item, Reading, Reads, Terms};
use mono_rank::RankTable;
use sparse_poly::{Poly, PolyTerm, Problem};
use std::alloc::{AllocError, Global};

/// The polynomial of an entry, of its terms by rank.
fn poly_of(
    alloc: Global,
    problem: &Problem,
    table: &RankTable,
    terms: &Terms,
) -> Result<Poly, AllocError>
    requires table { table.now ≡ shape_of problem.now }
    requires terms { AreTerms problem.now terms.now.list }
    requires canonical { IsCanonical problem.now.p problem.now.n (poly_by_rank problem.now terms.now.list) }
    ensures { IfOk result (λ f. f ≡ in_variables problem.now.n (poly_by_rank problem.now terms.now.list)) }
{
    let mut list = Vec::with_capacity(alloc, terms.len())?;
    for i in 0..terms.len() {
        let term = terms.get(i);
        list.push(PolyTerm {
            mono: table.mono(term.rank),
            coef: term.coef,
        })?;
    }
    let poly = Poly::from_terms(alloc, problem.field(), problem.n(), list)?;
    Ok(poly)
}

/// Adds the line of an entry with its number, which says where it comes from.
fn push_item(text: &mut String, i: u32, item: Item) -> Result<(), AllocError>
    ensures { OnOk result (Adds text.old text.new (line_text (item_line i item))) }
{
    text.push_str("entry ")?;
    push_number(text, u64::from(i))?;
    match item {
        Item::Generator(g) => push_last(text, " gen ", g),
        Item::Pair(a, b) => {
            text.push_str(" pair ")?;
            push_number(text, u64::from(a))?;
            push_last(text, " ", b)
        }
    }
}

/// Adds what stands before a number, that number, and the end of the line.
fn push_last(text: &mut String, front: &str, n: u32) -> Result<(), AllocError>
    ensures { OnOk result (Adds text.old text.new (front.now ++ (decimal n ++ codes "\n"))) }
{
    text.push_str(front)?;
    push_number(text, u64::from(n))?;
    text.push_str("\n")?;
    Ok(())
}

/// Adds a reading.
fn push_reading(text: &mut String, reading: Reading) -> Result<(), AllocError>
    ensures { OnOk result (Adds text.old text.new (line_text (read_line reading))) }
{
    text.push_str("read ")?;
    push_number(text, u64::from(reading.known))?;
    push_last(text, " ", reading.corner)
}

/// Adds the readings, and the polynomial that they lead to.
fn push_reads(
    alloc: Global,
    text: &mut String,
    ring: &Ring,
    reads: &Reads,
    poly: &Poly,
) -> Result<(), AllocError>
    requires { IsPolyOf ring.now poly.now }
    ensures { OnOk result (Adds text.old text.new (lines_text (reads_lines ring.now reads.now.list poly.now))) }
{
    for k in 0..reads.len() {
        push_reading(text, reads.get(k))?;
    }
    push_poly_line(alloc, text, ring, poly)
}

/// The lines of an entry with its number.
pub(crate) fn entry_text(
    alloc: Global,
    ring: &Ring,
    problem: &Problem,
    table: &RankTable,
    i: u32,
    entry: &Entry,
) -> Result<String, AllocError>
    requires table { table.now ≡ shape_of problem.now }
    requires entry { IsWritable ring.now problem.now (stored_entry entry.now) }
    ensures { IfOk result (λ s. string_bytes s ≡ lines_text (entry_lines ring.now i (entry_of problem.now (stored_entry entry.now)))) }
{
    let poly = poly_of(alloc, problem, table, &entry.terms)?;
    let mut text = String::new(alloc);
    push_item(&mut text, i, entry.item)?;
    push_reads(alloc, &mut text, ring, &entry.reads, &poly)?;
    Ok(text)
}
