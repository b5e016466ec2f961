//! What the top call answers to `check`.

use crate::run::{run, run_with};
use local_std::Status;
use std::alloc::Global;
use std::test::Fail;
use std::thread::Threads;

pub(crate) const KEPT: &[u8] =
    b"lstd-cert 1\nblock 1\np 32003\nvars x y\nD 4\ngens 2\nx-x^2-y^3\nx\nentries 2\nentry 0 gen 0\nread 0 15\npoly x-x^2-y^3\nentry 1 gen 1\nread 1 15\nread 1 15\nread 1 15\npoly y^3\nfits\nbasis 2\nx\ny^3\ncorner y^2\nstair 3 1 y y^2\nend 1\ndone 1\n";

/// The same without the last two readings of its second entry.
pub(crate) const CUT_SHORT: &[u8] =
    b"lstd-cert 1\nblock 1\np 32003\nvars x y\nD 4\ngens 2\nx-x^2-y^3\nx\nentries 2\nentry 0 gen 0\nread 0 15\npoly x-x^2-y^3\nentry 1 gen 1\nread 1 15\npoly y^3\nfits\nbasis 2\nx\ny^3\ncorner y^2\nstair 3 1 y y^2\nend 1\ndone 1\n";

/// Whether the text is answered by this status and line, and nothing is written to `cert`.
fn is_checked<R: Threads + Sync>(
    rt: &R,
    alloc: Global,
    text: &[u8],
    status: Status,
    line: &[u8],
) -> Result<bool, Fail> {
    let (found, out, cert) = run_with(rt, alloc, &["check"], text, &[], 1000, 1000)?;
    Ok(found == status && out.bytes() == line && cert.bytes().is_empty())
}

#[test]
fn certificate_is_accepted(rt: HostRuntime) -> Result<(), Fail> {
    assert!(rt; is_checked(&rt, rt.alloc(), KEPT, Status::Fits, b"accepted 1\n")?);
    Ok(())
}

#[test]
fn run_that_goes_on_is_rejected(rt: HostRuntime) -> Result<(), Fail> {
    assert!(rt;
        is_checked(
            &rt,
            rt.alloc(),
            CUT_SHORT,
            Status::Rejected,
            b"rejected line 14: run\n"
        )?
    );
    Ok(())
}

#[test]
fn no_bytes_are_rejected(rt: HostRuntime) -> Result<(), Fail> {
    assert!(rt;
        is_checked(
            &rt,
            rt.alloc(),
            b"",
            Status::Rejected,
            b"rejected line 1: form\n"
        )?
    );
    Ok(())
}

#[test]
fn failed_read_of_a_certificate(rt: HostRuntime) -> Result<(), Fail> {
    let (status, out) = run(&rt, rt.alloc(), &["check"], KEPT, &[1], 1000)?;
    assert!(rt; status == Status::ReadFault && out.bytes().is_empty());
    Ok(())
}
