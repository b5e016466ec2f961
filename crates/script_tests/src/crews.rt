//! Scripts that are solved by several workers: the answer is that of one, and each certificate is accepted.

use crate::run::{run, run_with};
use io_edge::{MemSink, MemSource};
use local_std::{Gate, Status, run_lstd};
use std::alloc::Global;
use std::sync::atomic::AtomicU64;
use std::sync::atomic::Ordering::SeqCst;
use std::test::Fail;
use std::thread::Threads;

const COUNTS: [&str; 4] = ["1", "2", "8", "16"];

/// The partial derivatives of x^5+x^2*y^2+y^5, asked for by each word.
const REALISTIC: &[u8] =
    b"LIB \"sing.lib\";\nring r=32003,(x,y),ds;\noption(redSB);\nnoether=y^6;\npoly f=x5+x2y2+y5;   // multiplicity 4\nideal i=jacob(f);\nideal s=std(i);\nstd(i);\nvdim(s);\nkbase(std(i));\nhighcorner(s);\nmilnor(f);\n";

const REALISTIC_ANSWER: &[u8] =
    b"1 std i\n_[1]=x^2*y-15999*y^4\n_[2]=x*y^2-15999*x^4\n_[3]=x^5-y^5\n_[4]=y^6\ncorner y^5\ndim 11\n2 vdim s\ndim 11\n3 kbase i\ndim 11\n_[1]=1\n_[2]=x\n_[3]=y\n_[4]=x^2\n_[5]=x*y\n_[6]=y^2\n_[7]=x^3\n_[8]=y^3\n_[9]=x^4\n_[10]=y^4\n_[11]=y^5\n4 highcorner s\ncorner y^5\n5 milnor f\nmilnor 11\n";

/// Three generators, one of them twice.
const TWICE: &[u8] =
    b"ring r=32003,(x,y),ds;\nnoether=y^6;\nideal i=2x2y+5y4,5x4+2xy2,2x2y+5y4; std(i);\n";

const TWICE_ANSWER: &[u8] =
    b"1 std i\n_[1]=x^2*y-15999*y^4\n_[2]=x*y^2-15999*x^4\n_[3]=x^5-y^5\n_[4]=y^6\ncorner y^5\ndim 11\n";

/// A script, and what answers it.
struct Row {
    script: &'static [u8],
    answer: &'static [u8],
    accepted: &'static [u8],
}

/// The realistic script; a unit; a run that uses an intermediate; the smallest ring.
const ROWS: [Row; 4] = [
    Row {
        script: REALISTIC,
        answer: REALISTIC_ANSWER,
        accepted: b"accepted 5\n",
    },
    Row {
        script: b"ring r=32003,(x,y),ds;\nnoether=x^3;\nideal i=1+x; std(i); kbase(i); highcorner(i);\n",
        answer: b"1 std i\n_[1]=1\ncorner none\ndim 0\n2 kbase i\ndim 0\n3 highcorner i\ncorner none\n",
        accepted: b"accepted 3\n",
    },
    Row {
        script: b"ring r=32003,(x,y),ds;\nnoether=x^4;\nideal i=x-x2-y3,x; std(i);\n",
        answer: b"1 std i\n_[1]=x\n_[2]=y^3\ncorner y^2\ndim 3\n",
        accepted: b"accepted 1\n",
    },
    Row {
        script: b"ring r=5,(x),ds;\nnoether=x;\nideal i=x; std(i);\n",
        answer: b"1 std i\n_[1]=x\ncorner 1\ndim 1\n",
        accepted: b"accepted 1\n",
    },
];

/// Whether so many workers answer the script, and the certificate is accepted.
fn is_solved<R: Threads + Sync>(
    rt: &R,
    alloc: Global,
    workers: &str,
    row: &Row,
) -> Result<bool, Fail> {
    let words = ["solve", "--workers", workers];
    let (status, out, cert) = run_with(rt, alloc, &words, row.script, &[], 10_000, 100_000)?;
    let (verdict, told) = run(rt, alloc, &["check"], cert.bytes(), &[], 1000)?;
    Ok(
        status == Status::Fits
            && out.bytes() == row.answer
            && verdict == Status::Fits
            && told.bytes() == row.accepted,
    )
}

#[test]
fn answers_of_crews(rt: HostRuntime) -> Result<(), Fail> {
    for workers in COUNTS {
        for row in &ROWS {
            assert!(rt;
                is_solved(&rt, rt.alloc(), workers, row)?,
                "{workers} workers"
            );
        }
    }
    Ok(())
}

#[test]
fn benches_of_crews(rt: HostRuntime) -> Result<(), Fail> {
    for workers in COUNTS {
        let words = ["bench", "--workers", workers, "15"];
        let (status, out) = run(&rt, rt.alloc(), &words, b"", &[0], 1000)?;
        assert!(rt; status == Status::Fits, "{workers} workers");
        assert_eq!(rt;
            out.bytes(),
            b"bench 15\n1 milnor f\nmilnor 29\n2 highcorner j\ncorner x^19\n".as_slice()
        );
    }
    Ok(())
}

/// How many turns of its loop a worker waits at most.
const BOUND: u64 = 200_000_000;

/// The number that stands for no worker.
const NOBODY: u64 = 16;

/// A gate that holds the worker which claimed ticket 0 until ticket 2 has been claimed, and remembers who claimed the first three
/// tickets, and whether the wait was in vain.
#[derive(Drop)]
struct Holding {
    first: AtomicU64,
    second: AtomicU64,
    third: AtomicU64,
    in_vain: AtomicU64,
}

impl Gate for Holding {
    fn passed(&self, worker: u32, ticket: u64) {
        match ticket {
            0 => {
                self.first.store(u64::from(worker), SeqCst);
                self.wait();
            }
            1 => self.second.store(u64::from(worker), SeqCst),
            2 => self.third.store(u64::from(worker), SeqCst),
            _ => {}
        }
    }
}

impl Holding {
    fn wait(&self) {
        for _ in 0..BOUND {
            if self.third.load(SeqCst) != NOBODY {
                return;
            }
        }
        self.in_vain.store(1, SeqCst);
    }
}

/// Whether the text has this line.
fn has_line(text: &[u8], line: &[u8]) -> bool {
    text.split(|b| *b == b'\n').any(|l| l == line)
}

#[test]
fn workers_run_beside_each_other(rt: HostRuntime) -> Result<(), Fail> {
    let alloc = rt.alloc();
    let gate = Holding {
        first: AtomicU64::new(NOBODY),
        second: AtomicU64::new(NOBODY),
        third: AtomicU64::new(NOBODY),
        in_vain: AtomicU64::new(0),
    };
    let mut words = Vec::new(alloc);
    for word in ["solve", "--workers", "2"] {
        words.push(String::from_str(alloc, word)?)?;
    }
    let mut source = MemSource::new(TWICE.to_vec(alloc)?, 10, Vec::new(alloc));
    let mut out = MemSink::new(alloc, 1000, 7, Vec::new(alloc))?;
    let mut cert = MemSink::new(alloc, 10_000, 100, Vec::new(alloc))?;
    let status = run_lstd(&rt, alloc, &words, &mut source, &mut out, &mut cert, &gate);
    assert!(rt; status == Status::Fits);
    assert_eq!(rt; out.bytes(), TWICE_ANSWER);
    assert_eq!(rt; gate.in_vain.load(SeqCst), 0);
    let first = gate.first.load(SeqCst);
    let second = gate.second.load(SeqCst);
    assert!(rt; first < 2 && second < 2 && first != second);
    assert!(rt; has_line(cert.bytes(), b"entry 0 gen 1"));
    let (verdict, told) = run(&rt, alloc, &["check"], cert.bytes(), &[], 1000)?;
    assert!(rt; verdict == Status::Fits && told.bytes() == b"accepted 1\n".as_slice());
    Ok(())
}
