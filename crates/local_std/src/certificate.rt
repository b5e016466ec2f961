// A script is answered command by command, and its certificate written block by block.
ghost use Rattle.std.specs.Prelude.{◌≡◌, ◌≤◌, codes, string_bytes, Some, slice_get};
ghost use Rattle.script_grammar.specs.Limits.{max_commands};
ghost use Rattle.ring_reader.specs.Coherent.{IsCoherent};
ghost use Rattle.cert_grammar.specs.Lines.{line_text, text as lines_text};
ghost use Rattle.cert_grammar.specs.Cert.{head_line, numbered, block_lines};
ghost use Rattle.cert_grammar.specs.Certified.{block_of};
ghost use Rattle.cert_write.specs.Writes.{WritesOrStops};
ghost use Rattle.local_std.specs.Solved.{claim_of};
ghost use Rattle.local_std.specs.declared.solved.Solved.{Solved as SolvedProblem};
ghost use Rattle.local_std.specs.Claims.{IsClaimable};
ghost use Rattle.local_std.specs.Answered.{Answers};
ghost use Rattle.local_std.specs.Words.{max_workers};

use crate::block::Blocks;
use crate::solved::Solved;
use cert_write::{CertWriteError, write_block, write_done, write_head};
use io_edge::Sink;
use ring_reader::Script;
use sparse_poly::Letters;
use std::alloc::Global;
use std::thread::Threads;
use workers::Gate;

/// Answers a script behind what stands in front: each command in order is solved by so many workers, and then its
/// block of the certificate is written.
pub fn answer_all<'a, R: Threads + Sync, C: Sink, G: Gate>(
    rt: &R,
    alloc: Global,
    script: &'a Script,
    front: String,
    cert: &mut C,
    workers: u32,
    gate: &G,
) -> Result<Blocks<'a>, CertWriteError>
    requires coherent { IsCoherent script.now }
    requires some { 1 ≤ workers }
    requires few { workers ≤ max_workers }
    ensures { Answers script.now (string_bytes front) (C.written cert.old) (C.written cert.new) (C.faults cert.old) (C.faults cert.new) result }
{
    begin(cert)?;
    let mut blocks = Blocks::behind(alloc, front);
    for k in 0..script.commands.len() {
        let Ok(place) = blocks.push(rt, alloc, script, k, workers, gate) else {
            return Err(CertWriteError::Memory);
        };
        write_claim(
            alloc,
            cert,
            k as u32 + 1,
            &script.names,
            &blocks.solved,
            place,
        )?;
    }
    end(cert, script.commands.len())?;
    Ok(blocks)
}

/// Writes the first line.
fn begin<C: Sink>(cert: &mut C) -> Result<(), CertWriteError>
    ensures { WritesOrStops (C.written cert.old) (C.written cert.new) (C.faults cert.old) (C.faults cert.new) result (line_text head_line) }
{
    match write_head(cert) {
        Ok(()) => Ok(()),
        Err(_) => Err(CertWriteError::Failed),
    }
}

/// Writes the last line.
fn end<C: Sink>(cert: &mut C, count: usize) -> Result<(), CertWriteError>
    requires { count ≤ max_commands }
    ensures { WritesOrStops (C.written cert.old) (C.written cert.new) (C.faults cert.old) (C.faults cert.new) result
        (line_text (numbered (codes "done") count)) }
{
    match write_done(cert, count as u32) {
        Ok(()) => Ok(()),
        Err(_) => Err(CertWriteError::Failed),
    }
}

/// Writes the block of the problem at a place among those that were solved.
fn write_claim<C: Sink>(
    alloc: Global,
    cert: &mut C,
    index: u32,
    names: &Letters,
    solved: &[Solved<'_>],
    place: usize,
) -> Result<(), CertWriteError>
    requires { IsClaimable names.now solved.now place }
    ensures { (one : SolvedProblem) → slice_get solved.now place ≡ Some one →
        WritesOrStops (C.written cert.old) (C.written cert.new) (C.faults cert.old) (C.faults cert.new) result
        (lines_text (block_lines index (block_of (claim_of names.now one)))) }
{
    let one = &solved[place];
    write_block(
        alloc,
        cert,
        index,
        names,
        one.question.problem(),
        &one.entries,
        &one.answer,
    )
}
