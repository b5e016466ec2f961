//! The checker of certificates.

ghost use Rattle.std.specs.Prelude.{◌≡◌, ℕ, ◌<◌, ◌≤◌, ◌+◌, ◌^◌, map, sum, IfOk};
ghost use Rattle.cert_grammar.specs.Certified.{IsCertificate};
ghost use Rattle.cert_check.specs.declared.certificate.Verdict.{Verdict as VerdictValue};
ghost use Rattle.cert_check.specs.declared.certificate.Verdict.TheVariants.{Accepted};
ghost use Rattle.cert_check.specs.Checks.{block_lines};
ghost use Rattle.cert_check.specs.Certificate.{IsVerdictOn, IsVerdictOf, AreRight};

use crate::block::check_block;
use crate::reason::Reason;
use cert_grammar::Certified;
use cert_text::{Cert, CertError, read_cert};
use std::alloc::{AllocError, Global};
use text_out::Answer;

/// What the checker answers of a text.
#[derive(Clone, Copy, Debug, PartialEq, Eq)]
pub enum Verdict {
    /// It is a certificate of so many blocks, and each is accepted.
    Accepted { blocks: u32 },
    /// Its first fault, with its line, counted from 1.
    Rejected { line: u64, reason: Reason },
}

/// How many lines a block has.
fn block_lines(block: &Certified) -> u64
    requires { block_lines block.now < 2 ^ 63 }
    ensures { result ≡ block_lines block.now }
{
    let mut lines = block.problem.gens().len() as u64 + 6;
    for i in 0..block.entries.len() {
        lines += block.entries.get(i).reads.len() as u64 + 2;
    }
    match &block.answer {
        Answer::Fits { basis, .. } => lines + 5 + basis.len() as u64,
        Answer::TooSmall { .. } => lines + 2,
    }
}

/// Checks the blocks of a certificate, from the first one on.
fn check_blocks(alloc: Global, cert: &Cert) -> Result<Verdict, AllocError>
    requires certificate { IsCertificate cert.now }
    requires few { sum (map block_lines cert.now) + 2 < 2 ^ 63 }
    ensures { IfOk result (IsVerdictOn cert.now) }
{
    let blocks = cert.blocks();
    let count = blocks.len();
    let mut line = 2;
    for k in 0..count {
        let block = &blocks[k];
        if let Some(fault) = check_block(alloc, block)? {
            return Ok(Verdict::Rejected {
                line: line + fault.line,
                reason: fault.reason,
            });
        }
        line += block_lines(block);
    }
    Ok(Verdict::Accepted {
        blocks: count as u32,
    })
}

/// Checks a text that is said to be a certificate, whoever wrote it. Where it is accepted, the answer of each block is the one that
/// the ideal of the problem in its lines determines.
pub fn check(alloc: Global, bytes: &[u8]) -> Result<Verdict, AllocError>
    // Accepted where the bytes are a certificate whose blocks are accepted, else the first fault.
    ensures verdict { IfOk result (IsVerdictOf bytes.now) }
    // Nothing else can be answered.
    ensures one { IfOk result (λ v. (w : VerdictValue) → IsVerdictOf bytes.now w → v ≡ w) }
    // Of each block of an accepted text: the degree fits exactly where that is answered; the basis is the reduced one, the list the
    // staircase, the corner its last monomial; and else the monomial is the first that is missing.
    ensures right { IfOk result (λ v. (n : ℕ) → v ≡ Accepted n → AreRight bytes.now) }
{
    match read_cert(alloc, bytes) {
        Ok(cert) => check_blocks(alloc, &cert),
        Err(error) => match error {
            CertError::Form { line } => Ok(Verdict::Rejected {
                line,
                reason: Reason::Form,
            }),
            CertError::Memory => Err(AllocError),
        },
    }
}
