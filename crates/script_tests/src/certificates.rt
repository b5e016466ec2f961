//! The certificates that the top call writes.

use crate::run::run_with;
use local_std::Status;
use std::alloc::Global;
use std::test::Fail;
use std::thread::Threads;

/// The partial derivatives of x^5+x^2*y^2+y^5, modulo degree 7.
const JACOBIAN: &[u8] =
    b"ring r=32003,(x,y),ds;\nnoether=y^6;\npoly f=x5+x2y2+y5;\nideal i=jacob(f);\nstd(i);\n";

const JACOBIAN_CERTIFICATE: &[u8] =
    b"lstd-cert 1\nblock 1\np 32003\nvars x y\nD 6\ngens 2\n2*x*y^2+5*x^4\n2*x^2*y+5*y^4\nentries 4\nentry 0 gen 0\nread 0 28\npoly x*y^2-15999*x^4\nentry 1 gen 1\nread 1 28\npoly x^2*y-15999*y^4\nentry 2 pair 0 1\nread 2 28\npoly x^5-y^5\nentry 3 pair 1 2\nread 3 28\npoly y^6\nfits\nbasis 4\nx^2*y-15999*y^4\nx*y^2-15999*x^4\nx^5-y^5\ny^6\ncorner y^5\nstair 11 1 x y x^2 x*y y^2 x^3 y^3 x^4 y^4 y^5\nend 1\ndone 1\n";

/// A run that keeps what it reduces, and uses it.
const KEPT: &[u8] = b"ring r=32003,(x,y),ds;\nnoether=x^4;\nideal i=x-x2-y3,x;\nstd(i);\n";

const KEPT_CERTIFICATE: &[u8] =
    b"lstd-cert 1\nblock 1\np 32003\nvars x y\nD 4\ngens 2\nx-x^2-y^3\nx\nentries 2\nentry 0 gen 0\nread 0 15\npoly x-x^2-y^3\nentry 1 gen 1\nread 1 15\nread 1 15\nread 1 15\npoly y^3\nfits\nbasis 2\nx\ny^3\ncorner y^2\nstair 3 1 y y^2\nend 1\ndone 1\n";

/// Whether the script's certificate by one worker is this text.
fn is_certified<R: Threads + Sync>(
    rt: &R,
    alloc: Global,
    script: &[u8],
    text: &[u8],
) -> Result<bool, Fail> {
    let words = ["solve", "--workers", "1"];
    let (status, _out, cert) = run_with(rt, alloc, &words, script, &[], 1000, 10_000)?;
    Ok(status == Status::Fits && cert.bytes() == text)
}

#[test]
fn certificate_of_a_jacobian(rt: HostRuntime) -> Result<(), Fail> {
    assert!(rt; is_certified(&rt, rt.alloc(), JACOBIAN, JACOBIAN_CERTIFICATE)?);
    Ok(())
}

#[test]
fn certificate_of_a_run_that_keeps(rt: HostRuntime) -> Result<(), Fail> {
    assert!(rt; is_certified(&rt, rt.alloc(), KEPT, KEPT_CERTIFICATE)?);
    Ok(())
}

#[test]
fn full_certificate_sink(rt: HostRuntime) -> Result<(), Fail> {
    // where the certificate can't be written, nothing else is
    let (status, out, cert) = run_with(&rt, rt.alloc(), &["solve"], KEPT, &[], 1000, 0)?;
    assert!(rt; status == Status::WriteFault);
    assert!(rt; out.bytes().is_empty() && cert.bytes().is_empty());
    Ok(())
}
