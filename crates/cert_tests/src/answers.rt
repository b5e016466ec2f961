//! What the checker answers of certificates and of changes of them.

use crate::texts::{INTERMEDIATE, JACOBIAN, OTHER_WORKER, TOO_SMALL, TWO_BLOCKS};
use cert_check::{Reason, Verdict, check};
use std::alloc::Global;
use std::test::Fail;

/// A certificate, lines of it that stand there once with what takes their place, and the line and the reason of the first fault.
struct Row {
    text: &'static str,
    changes: &'static [(&'static str, &'static str)],
    line: u64,
    reason: Reason,
}

const ROWS: [Row; 60] = [
    Row {
        text: JACOBIAN,
        changes: &[("entry 0 gen 0\n", "entry 0 gen 2\n")],
        line: 10,
        reason: Reason::Item,
    },
    Row {
        text: JACOBIAN,
        changes: &[("entry 2 pair 0 1\n", "entry 2 pair 0 2\n")],
        line: 16,
        reason: Reason::Item,
    },
    Row {
        text: OTHER_WORKER,
        changes: &[("read 1 5\nread 2 5\n", "read 2 5\nread 1 5\n")],
        line: 19,
        reason: Reason::Known,
    },
    Row {
        text: JACOBIAN,
        changes: &[("read 3 28\n", "read 3 29\n")],
        line: 20,
        reason: Reason::Corner,
    },
    Row {
        text: JACOBIAN,
        changes: &[("read 3 28\n", "read 3 27\n")],
        line: 20,
        reason: Reason::Corner,
    },
    Row {
        text: OTHER_WORKER,
        changes: &[("read 1 5\n", "read 1 4\n")],
        line: 18,
        reason: Reason::Corner,
    },
    Row {
        text: JACOBIAN,
        changes: &[("entry 3 pair 1 2\n", "entry 3 pair 0 2\n")],
        line: 20,
        reason: Reason::Run,
    },
    Row {
        text: INTERMEDIATE,
        changes: &[("read 1 15\nread 1 15\n", "")],
        line: 14,
        reason: Reason::Run,
    },
    Row {
        text: JACOBIAN,
        changes: &[("poly y^6\n", "poly x*y^5\n")],
        line: 21,
        reason: Reason::Poly,
    },
    Row {
        text: JACOBIAN,
        changes: &[
            ("entries 4\n", "entries 3\n"),
            ("entry 3 pair 1 2\nread 3 28\npoly y^6\n", ""),
        ],
        line: 19,
        reason: Reason::Unsettled,
    },
    Row {
        text: JACOBIAN,
        changes: &[
            ("fits\n", "too small y^6\n"),
            (
                "basis 4\nx^2*y-15999*y^4\nx*y^2-15999*x^4\nx^5-y^5\ny^6\ncorner y^5\nstair 11 1 x y x^2 x*y y^2 x^3 y^3 x^4 y^4 y^5\n",
                "",
            ),
        ],
        line: 22,
        reason: Reason::Verdict,
    },
    Row {
        text: JACOBIAN,
        changes: &[("basis 4\n", "basis 3\n"), ("x^5-y^5\ny^6\n", "x^5-y^5\n")],
        line: 23,
        reason: Reason::Basis,
    },
    Row {
        text: JACOBIAN,
        changes: &[("x*y^2-15999*x^4\nx^5-y^5\n", "x*y^2-15999*x^4\nx^5+y^5\n")],
        line: 26,
        reason: Reason::Basis,
    },
    Row {
        text: JACOBIAN,
        changes: &[("corner y^5\n", "corner x^5\n")],
        line: 28,
        reason: Reason::HighCorner,
    },
    Row {
        text: JACOBIAN,
        changes: &[(
            "stair 11 1 x y x^2 x*y y^2 x^3 y^3 x^4 y^4 y^5\n",
            "stair 10 1 x y x^2 x*y y^2 x^3 y^3 x^4 y^4\n",
        )],
        line: 29,
        reason: Reason::Stair,
    },
    Row {
        text: JACOBIAN,
        changes: &[("p 32003\n", "p 32002\n")],
        line: 3,
        reason: Reason::Form,
    },
    Row {
        text: JACOBIAN,
        changes: &[("D 6\n", "D 90\n")],
        line: 5,
        reason: Reason::Form,
    },
    Row {
        text: JACOBIAN,
        changes: &[("gens 2\n", "gens 65\n")],
        line: 6,
        reason: Reason::Form,
    },
    Row {
        text: JACOBIAN,
        changes: &[("entries 4\n", "entries 04\n")],
        line: 9,
        reason: Reason::Form,
    },
    Row {
        text: JACOBIAN,
        changes: &[("entries 4\n", "entries 4096\n")],
        line: 22,
        reason: Reason::Form,
    },
    Row {
        text: JACOBIAN,
        changes: &[("poly x*y^2-15999*x^4\n", "poly x*y^2+16004*x^4\n")],
        line: 12,
        reason: Reason::Form,
    },
    Row {
        text: JACOBIAN,
        changes: &[("done 1\n", "")],
        line: 31,
        reason: Reason::Form,
    },
    Row {
        text: JACOBIAN,
        changes: &[("done 1\n", "done 1\n\n")],
        line: 32,
        reason: Reason::Form,
    },
    Row {
        text: INTERMEDIATE,
        changes: &[("read 0 15\n", "read 0 14\n")],
        line: 11,
        reason: Reason::Corner,
    },
    Row {
        text: INTERMEDIATE,
        changes: &[("entry 0 gen 0\n", "entry 0 gen 1\n")],
        line: 12,
        reason: Reason::Poly,
    },
    Row {
        text: INTERMEDIATE,
        changes: &[("basis 2\n", "basis 3\n")],
        line: 22,
        reason: Reason::Form,
    },
    Row {
        text: INTERMEDIATE,
        changes: &[("corner y^2\n", "corner y\n")],
        line: 22,
        reason: Reason::HighCorner,
    },
    Row {
        text: INTERMEDIATE,
        changes: &[("stair 3 1 y y^2\n", "stair 3 1 y y^3\n")],
        line: 23,
        reason: Reason::Stair,
    },
    Row {
        text: OTHER_WORKER,
        changes: &[("entry 1 gen 1\n", "entry 1 gen 0\n")],
        line: 15,
        reason: Reason::Run,
    },
    Row {
        text: OTHER_WORKER,
        changes: &[("poly x*y\n", "poly x^2*y\n")],
        line: 20,
        reason: Reason::Poly,
    },
    Row {
        text: OTHER_WORKER,
        changes: &[("corner y\n", "corner x\n")],
        line: 26,
        reason: Reason::HighCorner,
    },
    Row {
        text: JACOBIAN,
        changes: &[("block 1\n", "block 2\n")],
        line: 2,
        reason: Reason::Form,
    },
    Row {
        text: JACOBIAN,
        changes: &[("p 32003\n", "p 7\n")],
        line: 7,
        reason: Reason::Form,
    },
    Row {
        text: JACOBIAN,
        changes: &[("D 6\n", "D 5\n")],
        line: 21,
        reason: Reason::Form,
    },
    Row {
        text: JACOBIAN,
        changes: &[("D 6\n", "D 7\n")],
        line: 11,
        reason: Reason::Corner,
    },
    Row {
        text: JACOBIAN,
        changes: &[("2*x*y^2+5*x^4\n", "3*x*y^2+5*x^4\n")],
        line: 12,
        reason: Reason::Poly,
    },
    Row {
        text: JACOBIAN,
        changes: &[("2*x^2*y+5*y^4\n", "2*x^3*y+5*y^4\n")],
        line: 15,
        reason: Reason::Poly,
    },
    Row {
        text: JACOBIAN,
        changes: &[("entry 1 gen 1\n", "entry 1 gen 0\n")],
        line: 14,
        reason: Reason::Run,
    },
    Row {
        text: JACOBIAN,
        changes: &[("read 1 28\n", "read 0 28\n")],
        line: 14,
        reason: Reason::Known,
    },
    Row {
        text: JACOBIAN,
        changes: &[("entry 2 pair 0 1\n", "entry 2 pair 1 1\n")],
        line: 16,
        reason: Reason::Item,
    },
    Row {
        text: JACOBIAN,
        changes: &[("read 2 28\n", "read 3 28\n")],
        line: 17,
        reason: Reason::Known,
    },
    Row {
        text: JACOBIAN,
        changes: &[("poly x^5-y^5\n", "poly x^5-y^6\n")],
        line: 18,
        reason: Reason::Poly,
    },
    Row {
        text: JACOBIAN,
        changes: &[("basis 4\nx^2*y-15999*y^4\n", "basis 4\nx^2*y-15998*y^4\n")],
        line: 24,
        reason: Reason::Basis,
    },
    Row {
        text: JACOBIAN,
        changes: &[("x^5-y^5\ny^6\n", "x^5-y^5\ny^5\n")],
        line: 27,
        reason: Reason::Basis,
    },
    Row {
        text: JACOBIAN,
        changes: &[("corner y^5\n", "corner y^4\n")],
        line: 28,
        reason: Reason::HighCorner,
    },
    Row {
        text: JACOBIAN,
        changes: &[("y^4 y^5\n", "y^4 y^6\n")],
        line: 29,
        reason: Reason::Stair,
    },
    Row {
        text: JACOBIAN,
        changes: &[("end 1\n", "end 2\n")],
        line: 30,
        reason: Reason::Form,
    },
    Row {
        text: INTERMEDIATE,
        changes: &[("y^3\nx\nentries 2\n", "y^3\nx^2\nentries 2\n")],
        line: 16,
        reason: Reason::Run,
    },
    Row {
        text: INTERMEDIATE,
        changes: &[("entry 1 gen 1\nread 1 15\n", "entry 1 gen 1\nread 0 15\n")],
        line: 14,
        reason: Reason::Run,
    },
    Row {
        text: INTERMEDIATE,
        changes: &[(
            "gen 1\nread 1 15\nread 1 15\n",
            "gen 1\nread 1 15\nread 1 14\n",
        )],
        line: 15,
        reason: Reason::Corner,
    },
    Row {
        text: INTERMEDIATE,
        changes: &[("read 1 15\npoly y^3\n", "read 0 15\npoly y^3\n")],
        line: 16,
        reason: Reason::Known,
    },
    Row {
        text: OTHER_WORKER,
        changes: &[("entry 2 gen 2\n", "entry 2 gen 1\n")],
        line: 18,
        reason: Reason::Run,
    },
    Row {
        text: OTHER_WORKER,
        changes: &[("read 1 5\n", "read 0 5\n")],
        line: 18,
        reason: Reason::Run,
    },
    Row {
        text: OTHER_WORKER,
        changes: &[("read 2 5\n", "read 2 4\n")],
        line: 19,
        reason: Reason::Corner,
    },
    Row {
        text: OTHER_WORKER,
        changes: &[("read 2 5\n", "read 1 5\n")],
        line: 19,
        reason: Reason::Known,
    },
    Row {
        text: TOO_SMALL,
        changes: &[("x^3\nentries 1\n", "x\nentries 1\n")],
        line: 13,
        reason: Reason::Unsettled,
    },
    Row {
        text: TOO_SMALL,
        changes: &[("too small x*y^2\n", "too small y^3\n")],
        line: 13,
        reason: Reason::Verdict,
    },
    Row {
        text: TWO_BLOCKS,
        changes: &[("block 2\n", "block 3\n")],
        line: 15,
        reason: Reason::Form,
    },
    Row {
        text: TWO_BLOCKS,
        changes: &[("read 2 5\n", "read 2 4\n")],
        line: 32,
        reason: Reason::Corner,
    },
    Row {
        text: TWO_BLOCKS,
        changes: &[("done 2\n", "done 1\n")],
        line: 42,
        reason: Reason::Form,
    },
];

/// The text with what takes the place of its lines.
fn changed(alloc: Global, text: &str, changes: &[(&str, &str)]) -> Result<String, Fail> {
    let mut now = String::from_str(alloc, text)?;
    for change in changes {
        now = now.as_str().replace(alloc, change.0, change.1)?;
    }
    Ok(now)
}

/// Whether the row's text is rejected at its line for its reason.
fn is_rejected(alloc: Global, row: &Row) -> Result<bool, Fail> {
    let text = changed(alloc, row.text, row.changes)?;
    let verdict = check(alloc, text.as_bytes())?;
    Ok(
        verdict
            == Verdict::Rejected {
                line: row.line,
                reason: row.reason,
            },
    )
}

/// Whether a text of so many blocks is accepted.
fn is_accepted(alloc: Global, text: &str, blocks: u32) -> Result<bool, Fail> {
    let verdict = check(alloc, text.as_bytes())?;
    Ok(verdict == Verdict::Accepted { blocks })
}

#[test]
fn certificates_are_accepted(rt: HostRuntime) -> Result<(), Fail> {
    for text in [JACOBIAN, INTERMEDIATE, OTHER_WORKER, TOO_SMALL] {
        assert!(rt; is_accepted(rt.alloc(), text, 1)?);
    }
    assert!(rt; is_accepted(rt.alloc(), TWO_BLOCKS, 2)?);
    Ok(())
}

#[test]
fn changes_that_nothing_hangs_on_are_accepted(rt: HostRuntime) -> Result<(), Fail> {
    for change in [
        ("p 32003\n", "p 2\n"),
        ("x^2+x*y+x^3\n", "x^2+2*x*y+x^3\n"),
        ("read 1 5\n", "read 2 5\n"),
        ("read 1 5\n", "read 1 7\n"),
    ] {
        let text = changed(rt.alloc(), OTHER_WORKER, &[change])?;
        assert!(rt; is_accepted(rt.alloc(), text.as_str(), 1)?);
    }
    Ok(())
}

#[test]
fn changed_certificates_are_rejected(rt: HostRuntime) -> Result<(), Fail> {
    for row in &ROWS {
        assert!(rt; is_rejected(rt.alloc(), row)?);
    }
    Ok(())
}

#[test]
fn no_bytes_are_no_certificate(rt: HostRuntime) -> Result<(), Fail> {
    let verdict = check(rt.alloc(), b"")?;
    assert!(rt;
        verdict
            == Verdict::Rejected {
                line: 1,
                reason: Reason::Form
            }
    );
    Ok(())
}
