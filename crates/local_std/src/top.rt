// The top call.
ghost use Rattle.std.specs.Prelude.{◌≡◌, ℕ, ◌≤◌, ◌⊎◌, List, map, string_bytes};
ghost use Rattle.local_std.specs.Words.{Request as Requested, Asks, max_workers, solve, check as check_of, bench as bench_of};
ghost use Rattle.local_std.specs.Bench.{max_bench};
ghost use Rattle.local_std.specs.Endings.{HasText, IsAnswered};
ghost use Rattle.local_std.specs.Lent.{lent, IsUntouched, HasFailed};
ghost use Rattle.local_std.specs.Due.{Due, OnRequest, Offers, Admits, FailsToRead, HasReadSome, IsWritten, IsBrokenOff, IsUnwritten, SolvesBehind, Concludes, Ends};
ghost use Rattle.ring_reader.specs.Coherent.{IsCoherent};
ghost use Rattle.local_std.specs.View.{Wrote, IsNumbered, request_in};
ghost use Rattle.local_std.specs.Texts.{usage_line, refusal_line as line_of_refusal};
ghost use Rattle.local_std.specs.declared.outcome.Status.TheVariants.{Input, Usage};

use crate::bench::{bench_line, read_bench};
use crate::certificate::answer_all;
use crate::outcome::Status;
use crate::refusal::refusal_line;
use crate::verdict::{verdict_line, verdict_status};
use crate::words::{Request, request_of, worker_count};
use cert_check::check as checked;
use cert_write::CertWriteError;
use io_edge::{ReadAllError, Sink, Source, read_all, write_all_counted};
use ring_reader::{ReadError, Script, read_script};
use script_grammar::ReadKind;
use std::alloc::Global;
use std::thread::Threads;
use workers::Gate;

/// Does all that the program does. The words leave out the program's name.
pub fn run_lstd<R: Threads + Sync, S: Source, K: Sink, C: Sink, G: Gate>(
    rt: &R,
    alloc: Global,
    words: &[String],
    source: &mut S,
    out: &mut K,
    cert: &mut C,
    gate: &G,
) -> Status
    // The texts that are due are written, and nothing else.
    ensures written { HasText result
        → IsWritten (Due (map string_bytes words.now) (lent S.left S.faults source.old source.new))
        (lent K.written K.faults out.old out.new) (lent C.written C.faults cert.old cert.new) result }

    // A request failed to read, and counted it. Nothing was written.
    ensures read_fault { result ≡ Status.ReadFault
        → IsUntouched (lent K.written K.faults out.old out.new) × IsUntouched (lent C.written C.faults cert.old cert.new)
        × OnRequest (map string_bytes words.now) (λ request. FailsToRead request (lent S.left S.faults source.old source.new)) }

    // Memory ran out at a request, and no fault of the source was counted. Nothing was written to `out`.
    ensures memory { result ≡ Status.Memory
        → IsBrokenOff (Due (map string_bytes words.now) (lent S.left S.faults source.old source.new))
        (lent K.written K.faults out.old out.new) (lent C.written C.faults cert.old cert.new)
        × OnRequest (map string_bytes words.now) (λ request. HasReadSome request (lent S.left S.faults source.old source.new)) }

    // A sink failed, and counted it. What it has gained is the beginning of a text that was due.
    ensures write_fault { result ≡ Status.WriteFault
        → IsUnwritten (Due (map string_bytes words.now) (lent S.left S.faults source.old source.new))
        (lent K.written K.faults out.old out.new) (lent C.written C.faults cert.old cert.new) }

    // What a request admits is answered, unless there was a fault or memory ran out.
    ensures complete { (request : Requested) (input : List ℕ) → Asks (map string_bytes words.now) request
        → Offers request (lent S.left S.faults source.old source.new) input → Admits request input
        → (HasFailed (lent S.left S.faults source.old source.new) → ⊥)
        → (HasFailed (lent K.written K.faults out.old out.new) ⊎ HasFailed (lent C.written C.faults cert.old cert.new) → ⊥)
        → IsAnswered result }
{
    match request_of(words) {
        None => misused(out, cert),
        Some(request) => {
            let workers = worker_count(words);
            serve(rt, alloc, request, source, out, cert, workers, gate)
        }
    }
}

/// Answers words that ask for nothing.
fn misused<K: Sink, C: Sink>(out: &mut K, cert: &mut C) -> Status
    ensures out { Wrote Usage usage_line (lent K.written K.faults out.old out.new) result }
    ensures cert { cert.new ≡ cert.old }
{
    let _cert = cert;
    written(out, USAGE, Status::Usage)
}

/// Serves a request.
fn serve<R: Threads + Sync, S: Source, K: Sink, C: Sink, G: Gate>(
    rt: &R,
    alloc: Global,
    request: Request,
    source: &mut S,
    out: &mut K,
    cert: &mut C,
    workers: u32,
    gate: &G,
) -> Status
    requires numbered { IsNumbered (request_in request) }
    requires some { 1 ≤ workers }
    requires few { workers ≤ max_workers }
    ensures { Ends (request_in request) (lent S.left S.faults source.old source.new)
        (lent K.written K.faults out.old out.new) (lent C.written C.faults cert.old cert.new) result }
{
    match request {
        Request::Solve => solve(rt, alloc, source, out, cert, workers, gate),
        Request::Check => check(alloc, source, out, cert),
        Request::Bench(number) => bench(rt, alloc, number, source, out, cert, workers, gate),
    }
}

/// Answers the script of a number. The source isn't read.
fn bench<R: Threads + Sync, S: Source, K: Sink, C: Sink, G: Gate>(
    rt: &R,
    alloc: Global,
    number: u16,
    source: &S,
    out: &mut K,
    cert: &mut C,
    workers: u32,
    gate: &G,
) -> Status
    requires number { number ≤ max_bench }
    requires some { 1 ≤ workers }
    requires few { workers ≤ max_workers }
    ensures { Ends (bench_of number) (lent S.left S.faults source.now source.now)
        (lent K.written K.faults out.old out.new) (lent C.written C.faults cert.old cert.new) result }
{
    let _source = source;
    let Ok(line) = bench_line(alloc, number) else {
        return Status::Memory;
    };
    let Ok(script) = read_bench(alloc, number) else {
        return Status::Memory;
    };
    answered(rt, alloc, &script, line, out, cert, workers, gate)
}

/// Answers a script.
fn solve<R: Threads + Sync, S: Source, K: Sink, C: Sink, G: Gate>(
    rt: &R,
    alloc: Global,
    source: &mut S,
    out: &mut K,
    cert: &mut C,
    workers: u32,
    gate: &G,
) -> Status
    requires some { 1 ≤ workers }
    requires few { workers ≤ max_workers }
    ensures { Ends solve (lent S.left S.faults source.old source.new)
        (lent K.written K.faults out.old out.new) (lent C.written C.faults cert.old cert.new) result }
{
    let bytes = match read_all(alloc, source, Request::Solve.limit()) {
        Ok(bytes) => bytes,
        Err(ReadAllError::Failed) => return Status::ReadFault,
        Err(ReadAllError::Memory) => return Status::Memory,
        Err(ReadAllError::TooLong) => return written(out, b"input too long\n", Status::Input),
    };
    let script = match read_script(alloc, &bytes) {
        Ok(script) => script,
        Err(ReadError::Memory) => return Status::Memory,
        Err(ReadError::At { line, column, kind }) => return refused(out, line, column, kind),
    };
    answered(
        rt,
        alloc,
        &script,
        String::new(alloc),
        out,
        cert,
        workers,
        gate,
    )
}

/// Answers bytes that are refused there.
fn refused<K: Sink>(out: &mut K, line: u32, column: u32, kind: ReadKind) -> Status
    ensures { Wrote Input (line_of_refusal line column kind) (lent K.written K.faults out.old out.new) result }
{
    let text = refusal_line(line, column, kind);
    written(out, text.as_str().as_bytes(), Status::Input)
}

/// Answers a script that was read: each command in order is solved and its block of the certificate written, and then the answer
/// is, behind what stands in front.
fn answered<R: Threads + Sync, K: Sink, C: Sink, G: Gate>(
    rt: &R,
    alloc: Global,
    script: &Script,
    front: String,
    out: &mut K,
    cert: &mut C,
    workers: u32,
    gate: &G,
) -> Status
    requires coherent { IsCoherent script.now }
    requires some { 1 ≤ workers }
    requires few { workers ≤ max_workers }
    ensures { Concludes (SolvesBehind (string_bytes front) script.now) (lent K.written K.faults out.old out.new)
        (lent C.written C.faults cert.old cert.new) result }
{
    match answer_all(rt, alloc, script, front, cert, workers, gate) {
        Ok(blocks) => written(out, blocks.text.as_bytes(), blocks.status()),
        Err(CertWriteError::Failed) => Status::WriteFault,
        Err(CertWriteError::Memory) => Status::Memory,
    }
}

/// Checks a certificate.
fn check<S: Source, K: Sink, C: Sink>(
    alloc: Global,
    source: &mut S,
    out: &mut K,
    cert: &C,
) -> Status
    ensures { Ends check_of (lent S.left S.faults source.old source.new)
        (lent K.written K.faults out.old out.new) (lent C.written C.faults cert.now cert.now) result }
{
    let _cert = cert;
    let certificate = match read_all(alloc, source, Request::Check.limit()) {
        Ok(certificate) => certificate,
        Err(error) => match error {
            ReadAllError::Failed => return Status::ReadFault,
            ReadAllError::Memory => return Status::Memory,
            ReadAllError::TooLong => return written(out, b"input too long\n", Status::Input),
        },
    };
    match checked(alloc, &certificate) {
        Err(_) => Status::Memory,
        Ok(verdict) => {
            let line = verdict_line(verdict);
            written(out, line.as_str().as_bytes(), verdict_status(verdict))
        }
    }
}

const USAGE: &[u8] =
    b"usage: lstd solve [--workers W] [--cert PATH] | lstd check | lstd bench K [--workers W] [--cert PATH]\n";

/// Writes a text.
fn written<K: Sink>(out: &mut K, text: &[u8], status: Status) -> Status
    ensures { Wrote status text.now (lent K.written K.faults out.old out.new) result }
{
    match write_all_counted(out, text) {
        Ok(()) => status,
        Err(_) => Status::WriteFault,
    }
}
