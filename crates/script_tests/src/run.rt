//! Runs of the top call in memory.

ghost use Rattle.std.specs.Prelude.{◌≤◌};

use io_edge::{MemSink, MemSource};
use local_std::{OpenGate, Status, run_lstd};
use std::alloc::Global;
use std::test::Fail;
use std::thread::Threads;

/// Runs the words over the script, in pieces of 10 bytes, into a sink that takes 7 bytes a write. The certificate's sink has
/// room for a megabyte.
pub(crate) fn run<R: Threads + Sync>(
    rt: &R,
    alloc: Global,
    words: &[&str],
    script: &[u8],
    failing_reads: &[u64],
    room: usize,
) -> Result<(Status, MemSink), Fail> {
    let (status, out, _cert) = run_with(rt, alloc, words, script, failing_reads, room, 1 << 20)?;
    Ok((status, out))
}

/// The same into a certificate's sink with so much room, which takes 100 bytes a write.
pub(crate) fn run_with<R: Threads + Sync>(
    rt: &R,
    alloc: Global,
    words: &[&str],
    script: &[u8],
    failing_reads: &[u64],
    room: usize,
    cert_room: usize,
) -> Result<(Status, MemSink, MemSink), Fail> {
    let failing = Failing {
        reads: failing_reads,
        answer: &[],
        certificate: &[],
    };
    run_failing(rt, alloc, words, script, &failing, room, cert_room)
}

/// The numbers, from 0, of the reads that fail, and of the writes of the answer and of the certificate that do.
#[derive(Clone, Copy)]
pub(crate) struct Failing<'a> {
    pub(crate) reads: &'a [u64],
    pub(crate) answer: &'a [u64],
    pub(crate) certificate: &'a [u64],
}

/// The same where some calls fail.
pub(crate) fn run_failing<R: Threads + Sync>(
    rt: &R,
    alloc: Global,
    words: &[&str],
    script: &[u8],
    failing: &Failing<'_>,
    room: usize,
    cert_room: usize,
) -> Result<(Status, MemSink, MemSink), Fail> {
    run_in_pieces(rt, alloc, words, script, 10, failing, room, cert_room)
}

/// The same in pieces of so many bytes.
pub(crate) fn run_in_pieces<R: Threads + Sync>(
    rt: &R,
    alloc: Global,
    words: &[&str],
    script: &[u8],
    piece: usize,
    failing: &Failing<'_>,
    room: usize,
    cert_room: usize,
) -> Result<(Status, MemSink, MemSink), Fail>
    requires { 1 ≤ piece }
{
    let mut given = Vec::new(alloc);
    for word in words {
        given.push(String::from_str(alloc, *word)?)?;
    }
    let mut source = MemSource::new(script.to_vec(alloc)?, piece, failing.reads.to_vec(alloc)?);
    let mut out = MemSink::new(alloc, room, 7, failing.answer.to_vec(alloc)?)?;
    let mut cert = MemSink::new(alloc, cert_room, 100, failing.certificate.to_vec(alloc)?)?;
    let status = run_lstd(
        rt,
        alloc,
        &given,
        &mut source,
        &mut out,
        &mut cert,
        &OpenGate,
    );
    Ok((status, out, cert))
}

/// Whether the script is answered by this status and text.
pub(crate) fn is_answered<R: Threads + Sync>(
    rt: &R,
    alloc: Global,
    script: &[u8],
    status: Status,
    answer: &[u8],
) -> Result<bool, Fail> {
    let (found, out) = run(rt, alloc, &["solve"], script, &[], 1000)?;
    Ok(found == status && out.bytes() == answer)
}
