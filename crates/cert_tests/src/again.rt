//! Certificates that are read and written again.

ghost use Rattle.cert_grammar.specs.Certified.{IsCertified};

use crate::texts::{INTERMEDIATE, JACOBIAN, OTHER_WORKER, TOO_SMALL};
use cert_grammar::Certified;
use cert_text::read_cert;
use cert_write::{write_block, write_done, write_head};
use io_edge::MemSink;
use std::alloc::Global;
use std::test::Fail;

/// Writes the certificate of this one block, and says whether it was written whole.
#[tactic(auto, using(crate::proofs::Claims::claimed))]
fn write_one(alloc: Global, sink: &mut MemSink, block: &Certified) -> bool
    requires { IsCertified block.now }
{
    let is_begun = write_head(sink).is_ok();
    let is_written = write_block(
        alloc,
        sink,
        1,
        &block.letters,
        &block.problem,
        &block.entries,
        &block.answer,
    )
    .is_ok();
    is_begun && is_written && write_done(sink, 1).is_ok()
}

/// Whether the text is a certificate of one block, and what is written of it is this text.
fn is_written_again(alloc: Global, text: &str) -> Result<bool, Fail> {
    let mut sink = MemSink::new(alloc, 2000, 100, Vec::new(alloc))?;
    let Ok(cert) = read_cert(alloc, text.as_bytes()) else {
        return Ok(false);
    };
    let [block] = cert.blocks() else {
        return Ok(false);
    };
    Ok(write_one(alloc, &mut sink, block) && sink.bytes() == text.as_bytes())
}

#[test]
fn certificates_are_written_again(rt: HostRuntime) -> Result<(), Fail> {
    for text in [JACOBIAN, INTERMEDIATE, OTHER_WORKER, TOO_SMALL] {
        assert!(rt; is_written_again(rt.alloc(), text)?);
    }
    Ok(())
}
