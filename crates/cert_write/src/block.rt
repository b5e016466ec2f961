//! Writing the block of a problem.

ghost use Rattle.std.specs.Prelude.{◌≡◌, ◌≤◌, ℕ, List, ◌∷◌, ◌++◌, [], codes, length, map, string_bytes, IfOk};
ghost use Rattle.std.specs.List.{AllByRecursion};
ghost use Rattle.local_order.specs.Limits.{max_monomials};
ghost use Rattle.sparse_poly.specs.Shape.{shape_of};
ghost use Rattle.entry_code.specs.Entry.{entry_of as stored_entry};
ghost use Rattle.cert_grammar.specs.Lines.{text as lines_text};
ghost use Rattle.cert_grammar.specs.Words.{IsPolyOf, poly_word};
ghost use Rattle.cert_grammar.specs.Cert.{numbered, vars_line, counted, alone, in_turn, entry_lines, verdict_lines, block_lines, IsVerdict};
ghost use Rattle.cert_grammar.specs.Certified.{AreTerms, entry_of, verdict_of, block_of, IsCertified};
ghost use Rattle.cert_write.specs.Claim.{corner_of, claim};
ghost use Rattle.cert_write.specs.Writes.{WritesOrStops};
ghost use Rattle.cert_write.specs.Parts.{IsWritable};

use crate::entry::entry_text;
use crate::error::CertWriteError;
use crate::front::front_text;
use crate::verdict::end_text;
use cert_grammar::Ring;
use entry_code::{Entries, Entry};
use io_edge::{Sink, write_all_counted};
use mono_rank::{RankError, RankTable};
use sparse_poly::{Letters, Problem};
use std::alloc::{AllocError, Global};
use text_out::Answer;

/// Writes a text, where memory was enough to make it.
fn write_made<C: Sink>(sink: &mut C, made: Result<String, AllocError>) -> Result<(), CertWriteError>
    ensures { (text : List ℕ) → IfOk made (λ s. string_bytes s ≡ text) → WritesOrStops (C.written sink.old) (C.written sink.new) (C.faults sink.old) (C.faults sink.new) result text }
{
    let Ok(text) = made else {
        return Err(CertWriteError::Memory);
    };
    match write_all_counted(sink, text.as_bytes()) {
        Ok(()) => Ok(()),
        Err(_) => Err(CertWriteError::Failed),
    }
}

/// Writes the entries.
fn write_entries<C: Sink>(
    alloc: Global,
    sink: &mut C,
    ring: &Ring,
    problem: &Problem,
    table: &RankTable,
    entries: &Entries,
) -> Result<(), CertWriteError>
    requires table { table.now ≡ shape_of problem.now }
    requires few { length entries.now ≤ max_monomials }
    requires entries { AllByRecursion (IsWritable ring.now problem.now) entries.now }
    ensures { WritesOrStops (C.written sink.old) (C.written sink.new) (C.faults sink.old) (C.faults sink.new) result
        (lines_text (in_turn (entry_lines ring.now) 0 (map (entry_of problem.now) entries.now))) }
{
    for i in 0..entries.len() {
        let made = entry_text(alloc, ring, problem, table, i as u32, entries.get(i));
        write_made(sink, made)?;
    }
    Ok(())
}

/// The ranks of the problem's monomials, of which there are never too many.
fn table_of(alloc: Global, problem: &Problem) -> Result<RankTable, AllocError>
    ensures { IfOk result (λ t. t ≡ shape_of problem.now) }
{
    let _field = problem.field();
    match RankTable::new(alloc, problem.n(), problem.d()) {
        Ok(table) => Ok(table),
        Err(RankError::Memory) => Err(AllocError),
        Err(RankError::TooManyMonomials(_)) => unreachable!(),
    }
}

/// Writes the block of a problem with its number: how each entry came, and the answer.
/// It makes the text of one entry at a time.
pub fn write_block<C: Sink>(
    alloc: Global,
    sink: &mut C,
    index: u32,
    letters: &Letters,
    problem: &Problem,
    entries: &Entries,
    answer: &Answer,
) -> Result<(), CertWriteError>
    // There is such a block in certificates.
    requires { IsCertified (claim letters.now problem.now entries.now answer.now) }
    // Its text was appended, or a prefix of it where the sink failed or memory ran out.
    ensures { WritesOrStops (C.written sink.old) (C.written sink.new) (C.faults sink.old) (C.faults sink.new) result
        (lines_text (block_lines index (block_of (claim letters.now problem.now entries.now answer.now)))) }
{
    let ring = Ring::new(*problem.field(), *letters, problem.d());
    let Ok(table) = table_of(alloc, problem) else {
        return Err(CertWriteError::Memory);
    };
    let front = front_text(alloc, index, &ring, problem.gens(), entries.len());
    write_made(sink, front)?;
    write_entries(alloc, sink, &ring, problem, &table, entries)?;
    write_made(sink, end_text(alloc, index, &ring, answer))
}
