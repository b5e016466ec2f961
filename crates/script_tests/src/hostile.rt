//! Bytes drawn at random as scripts and as certificates: none is read, and memory never runs out.

ghost use Rattle.std.specs.Prelude.{◌<◌};

use crate::run::{Failing, run_in_pieces};
use local_std::Status;
use std::alloc::{AllocError, Global};
use std::test::Fail;

/// Each input's length: as many inputs as there are sizes of pieces have two million bytes together.
const LENGTH: usize = 489;

const LARGEST_PIECE: usize = 4097;

/// What scripts and certificates are made of, so that inputs get past their first token.
const MARKS: &[u8] =
    b"ring r=7,(x,y),ds;\nnoether=x^2;ideal i=std(i);/*\"lstd-cert 1\nblock 1\np 7\n";

/// The next of a fixed list of numbers: the upper bits of a congruential generator's state.
fn draw(state: &mut u64, below: u32) -> u32
    requires { 0 < below }
    ensures { result < below }
{
    *state = state
        .wrapping_mul(6364136223846793005)
        .wrapping_add(1442695040888963407);
    ((*state >> 33) % u64::from(below)) as u32
}

/// Bytes at random, the first of them those of the marks from one on, as many as are drawn.
fn bytes_at_random(alloc: Global, state: &mut u64) -> Result<Vec<u8>, AllocError> {
    let kept = draw(state, MARKS.len() as u32 + 1) as usize;
    let mut bytes = MARKS[..kept].to_vec(alloc)?;
    for _ in kept..LENGTH {
        let byte = draw(state, 256) as u8;
        bytes.push(byte)?;
    }
    Ok(bytes)
}

const NO_CALL_FAILS: Failing<'static> = Failing {
    reads: &[],
    answer: &[],
    certificate: &[],
};

#[test]
fn random_bytes_in_pieces_of_each_size(rt: HostRuntime) -> Result<(), Fail> {
    let mut state = 20261202;
    for size in 0..LARGEST_PIECE {
        let piece = size + 1;
        let bytes = bytes_at_random(rt.alloc(), &mut state)?;
        let (status, out, cert) = run_in_pieces(
            &rt,
            rt.alloc(),
            &["solve"],
            &bytes,
            piece,
            &NO_CALL_FAILS,
            1000,
            1000,
        )?;
        assert!(rt; status == Status::Input, "a script in pieces of {piece}");
        assert!(rt; out.bytes().starts_with(b"line ") && cert.bytes().is_empty());
        let (status, out, cert) = run_in_pieces(
            &rt,
            rt.alloc(),
            &["check"],
            &bytes,
            piece,
            &NO_CALL_FAILS,
            1000,
            1000,
        )?;
        assert!(rt;
            status == Status::Rejected,
            "a certificate in pieces of {piece}"
        );
        assert!(rt; out.bytes().starts_with(b"rejected line ") && cert.bytes().is_empty());
    }
    Ok(())
}
