//! What the lines of a block certify: entries with their terms by rank, and an answer.

ghost use Rattle.std.specs.Prelude.{◌≡◌, ◌≤◌, length, map, All, IfOk};
ghost use Rattle.local_order.specs.Mono.{degree};
ghost use Rattle.mono_rank.specs.Rank.{rank_of};
ghost use Rattle.sparse_poly.specs.Poly.{HasDegreeAtMost};
ghost use Rattle.sparse_poly.specs.Shape.{shape_of};
ghost use Rattle.entry_code.specs.Entry.{entry_of as stored_entry};
ghost use Rattle.cert_grammar.specs.Cert.{IsBlock};
ghost use Rattle.cert_grammar.specs.Certified.{terms_by_rank, run_entry as entry_by_rank, answer_in, corner_in, certified_of};
ghost use Rattle.cert_text.specs.Ranked.{IsRanked};

use cert_grammar::{Block as BlockLines, Certified, Entry as EntryLines, Verdict};
use entry_code::{Entries, Entry, Reading, Reads, Term, Terms};
use local_order::Mono;
use mono_rank::{RankError, RankTable};
use sparse_poly::{Poly, Polys, Problem};
use std::alloc::{AllocError, Global};
use text_out::{Answer, Monos};

/// The rank of a monomial of the table.
fn rank_in(table: &RankTable, m: &Mono) -> u32
    requires variables { length m.now ≡ table.now.variables }
    requires low { degree m.now ≤ table.now.degree }
    ensures { result ≡ rank_of table.now m.now }
{
    match table.rank(m) {
        Some(rank) => rank,
        None => unreachable!(),
    }
}

/// The terms of a polynomial by rank.
fn terms_of(alloc: Global, table: &RankTable, f: &Poly) -> Result<Terms, AllocError>
    requires variables { f.now.n ≡ table.now.variables }
    requires low { HasDegreeAtMost table.now.degree f.now.terms }
    ensures { IfOk result (λ ts. ts.list ≡ terms_by_rank table.now f.now.terms) }
{
    let terms = f.terms();
    let mut list = Terms::room(alloc, terms.len())?;
    for term in terms {
        list.push(Term {
            rank: rank_in(table, &term.mono),
            coef: term.coef,
        })?;
    }
    Ok(list)
}

/// The readings as an entry has them.
fn reads_of(alloc: Global, reads: &[Reading]) -> Result<Reads, AllocError>
    ensures { IfOk result (λ rs. rs.list ≡ reads.now) }
{
    let mut list = Reads::room(alloc, reads.len())?;
    for reading in reads {
        list.push(*reading)?;
    }
    Ok(list)
}

/// An entry with its terms by rank.
fn run_entry(alloc: Global, table: &RankTable, entry: &EntryLines) -> Result<Entry, AllocError>
    requires { IsRanked table.now entry.now }
    ensures { IfOk result (λ e. stored_entry e ≡ entry_by_rank table.now entry.now) }
{
    let reads = reads_of(alloc, entry.reads())?;
    let terms = terms_of(alloc, table, entry.poly())?;
    Ok(Entry {
        item: entry.item(),
        reads,
        terms,
    })
}

/// The entries with their terms by rank.
fn run_entries(
    alloc: Global,
    table: &RankTable,
    entries: &[EntryLines],
) -> Result<Entries, AllocError>
    requires { All (IsRanked table.now) entries.now }
    ensures { IfOk result (λ es. es ≡ map (entry_by_rank table.now) entries.now) }
{
    let mut list = Entries::new(alloc);
    for entry in entries {
        list.push(run_entry(alloc, table, entry)?)?;
    }
    Ok(list)
}

/// The answer of a verdict, and the corner that is named.
fn answer_of(verdict: Verdict) -> (Answer, Option<Mono>)
    ensures answer { result.0 ≡ answer_in verdict }
    ensures corner { result.1 ≡ corner_in verdict }
{
    match verdict {
        Verdict::Fits(fitting) => {
            let (basis, corner, stair) = fitting.into_parts();
            let answer = Answer::Fits {
                basis: Polys::from_vec(basis),
                stair: Monos::from_vec(stair),
            };
            (answer, corner)
        }
        Verdict::TooSmall(missing) => (Answer::TooSmall { missing }, None),
    }
}

/// The ranks of the problem's monomials, of which there are never too many.
fn table_of(alloc: Global, problem: &Problem) -> Result<RankTable, AllocError>
    ensures { IfOk result (λ t. t ≡ shape_of problem.now) }
{
    let _field = problem.field();
    match RankTable::new(alloc, problem.n(), problem.d()) {
        Ok(table) => Ok(table),
        Err(RankError::Memory) => Err(AllocError),
        Err(RankError::TooManyMonomials(_)) => unreachable!(),
    }
}

/// What the lines of a block certify.
pub(crate) fn certify(alloc: Global, block: BlockLines) -> Result<Certified, AllocError>
    requires { IsBlock block }
    ensures { IfOk result (λ b. b ≡ certified_of block) }
{
    let (ring, gens, lines, verdict) = block.into_parts();
    let letters = *ring.letters();
    let n = letters.len() as u32;
    let d = ring.d();
    let problem = Problem::new(*ring.field(), n, d, Polys::from_vec(gens));
    let table = table_of(alloc, &problem)?;
    let entries = run_entries(alloc, &table, &lines)?;
    let (answer, corner) = answer_of(verdict);
    Ok(Certified {
        letters,
        problem,
        entries,
        answer,
        corner,
    })
}
