//! One call of the source or of a sink fails, each in its turn: the status, and what both sinks have gained.

use crate::checks::{CUT_SHORT, KEPT};
use crate::run::{Failing, run_failing, run_with};
use io_edge::MemSink;
use local_std::Status;
use std::alloc::Global;
use std::test::Fail;
use std::thread::Threads;

/// The room of each sink, and more calls than any run here makes.
const ROOM: usize = 100_000;

const CALLS: u64 = 1_000;

/// Words, what their source has, and the status where nothing fails. One worker alone writes the same certificate each time.
struct Case {
    words: &'static [&'static str],
    input: &'static [u8],
    status: Status,
}

/// Three powers of x and y.
const POWERS: &[u8] = b"ring r=32003,(x,y),ds;\nnoether=x^5;\nideal i=x3,x2y,y3; std(i);\n";

/// A script with one command, with several, and with a degree that is too small; a certificate that is accepted, and one that
/// isn't.
const CASES: [Case; 5] = [
    Case {
        words: &["solve", "--workers", "1"],
        input: POWERS,
        status: Status::Fits,
    },
    Case {
        words: &["solve", "--workers", "1"],
        input: b"ring r=32003,(x,y),ds;\nnoether=y^6;\npoly f=x5+x2y2+y5;\nideal i=jacob(f);\nstd(i);\nvdim(i);\nmilnor(f);\n",
        status: Status::Fits,
    },
    Case {
        words: &["solve", "--workers", "1"],
        input: b"ring r=32003,(x,y),ds;\nnoether=y^5;\npoly f=x5+x2y2+y5;\nideal i=jacob(f);\nstd(i);\n",
        status: Status::TooSmall,
    },
    Case {
        words: &["check"],
        input: KEPT,
        status: Status::Fits,
    },
    Case {
        words: &["check"],
        input: CUT_SHORT,
        status: Status::Rejected,
    },
];

/// Runs a case where a read, a write of the answer or one of the certificate fails.
fn failing_run<R: Threads + Sync>(
    rt: &R,
    alloc: Global,
    case: &Case,
    reads: &[u64],
    answer: &[u64],
    certificate: &[u64],
) -> Result<(Status, MemSink, MemSink), Fail> {
    let failing = Failing {
        reads,
        answer,
        certificate,
    };
    run_failing(rt, alloc, case.words, case.input, &failing, ROOM, ROOM)
}

/// Whether nothing is written where a read fails.
fn are_reads<R: Threads + Sync>(rt: &R, alloc: Global, case: &Case) -> Result<bool, Fail> {
    for k in 0..CALLS {
        let (status, out, cert) = failing_run(rt, alloc, case, &[k], &[], &[])?;
        if status == case.status {
            return Ok(k > 0);
        }
        if status != Status::ReadFault || !out.bytes().is_empty() || !cert.bytes().is_empty() {
            return Ok(false);
        }
    }
    Ok(false)
}

/// Whether the certificate has gained its beginning, more each time, and the answer nothing, where a write of the certificate
/// fails.
fn are_certificates<R: Threads + Sync>(
    rt: &R,
    alloc: Global,
    case: &Case,
    certificate: &[u8],
) -> Result<bool, Fail> {
    let mut written = 0;
    for k in 0..CALLS {
        let (status, out, cert) = failing_run(rt, alloc, case, &[], &[], &[k])?;
        if status == case.status {
            return Ok(written <= certificate.len() && cert.bytes() == certificate);
        }
        let part = cert.bytes();
        if status != Status::WriteFault || !out.bytes().is_empty() || part.len() < written {
            return Ok(false);
        }
        if !certificate.starts_with(part) {
            return Ok(false);
        }
        written = part.len().saturating_add(1);
    }
    Ok(false)
}

/// Whether the certificate is whole, and the answer has gained 7 bytes for each write before, where a write of the answer fails.
fn are_answers<R: Threads + Sync>(
    rt: &R,
    alloc: Global,
    case: &Case,
    answer: &[u8],
    certificate: &[u8],
) -> Result<bool, Fail> {
    for k in 0..CALLS {
        let (status, out, cert) = failing_run(rt, alloc, case, &[], &[k], &[])?;
        if cert.bytes() != certificate {
            return Ok(false);
        }
        if status == case.status {
            return Ok(k > 0 && out.bytes() == answer);
        }
        let part = out.bytes();
        if status != Status::WriteFault || part.len() as u64 != 7 * k || !answer.starts_with(part) {
            return Ok(false);
        }
    }
    Ok(false)
}

#[test]
fn one_call_fails(rt: HostRuntime) -> Result<(), Fail> {
    for case in &CASES {
        let (status, out, cert) = failing_run(&rt, rt.alloc(), case, &[], &[], &[])?;
        assert!(rt; status == case.status);
        assert!(rt; are_reads(&rt, rt.alloc(), case)?);
        assert!(rt; are_certificates(&rt, rt.alloc(), case, cert.bytes())?);
        assert!(rt; are_answers(&rt, rt.alloc(), case, out.bytes(), cert.bytes())?);
    }
    Ok(())
}

#[test]
fn no_room_for_the_answer(rt: HostRuntime) -> Result<(), Fail> {
    let words = ["solve", "--workers", "1"];
    let (_, _, whole) = run_with(&rt, rt.alloc(), &words, POWERS, &[], ROOM, ROOM)?;
    let (status, out, cert) = run_with(&rt, rt.alloc(), &words, POWERS, &[], 0, ROOM)?;
    assert!(rt; status == Status::WriteFault && out.bytes().is_empty());
    assert!(rt; !whole.bytes().is_empty() && cert.bytes() == whole.bytes());
    Ok(())
}

/// Words, and bytes of a source whose first read is counted among the failing ones or not.
const LINES: [(&[&str], &[u8], &[u64]); 2] = [
    (&["solve", "x"], POWERS, &[0]),
    (&["check"], b"", &[]),
];

#[test]
fn no_room_for_a_line(rt: HostRuntime) -> Result<(), Fail> {
    // words that ask for nothing have nothing read, so the read that would fail isn't made
    for (words, input, reads) in LINES {
        let failing = Failing {
            reads,
            answer: &[0],
            certificate: &[],
        };
        let (status, out, cert) = run_failing(&rt, rt.alloc(), words, input, &failing, ROOM, ROOM)?;
        assert!(rt; status == Status::WriteFault);
        assert!(rt; out.bytes().is_empty() && cert.bytes().is_empty());
    }
    Ok(())
}
