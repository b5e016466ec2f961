//! Reading a certificate: what is answered once its parts are read.

ghost use Rattle.std.specs.Prelude.{◌≡◌, List, length, map, IfOk};
ghost use Rattle.std.specs.List.{AllByRecursion};
ghost use Rattle.cert_grammar.specs.declared.certified.Certified.{Certified};
ghost use Rattle.cert_grammar.specs.Certified.{IsCertified, IsCertificate, block_of, certificate_text};
ghost use Rattle.cert_grammar.specs.Lines.{lines_of};
ghost use Rattle.cert_text.specs.Gives.{Gives};
ghost use Rattle.cert_grammar.specs.Reading.{cert_at, line_number};
ghost use Rattle.cert_text.specs.Answers.{Answers, TellsLine};

use crate::certificate::Cert;
use crate::error::CertError;
use crate::lines::{Lines, lines_in};
use crate::stop::Stop;
use std::alloc::Global;

/// The number of the line from which on these lines are left.
fn line_at_stop(bytes: &[u8], left: &Lines<'_>) -> u64
    ensures { result ≡ line_number bytes.now left.now }
{
    (lines_in(bytes).count().saturating_sub(left.count())) as u64 + 1
}

/// The certificate that the bytes are.
pub fn read_cert(alloc: Global, bytes: &[u8]) -> Result<Cert, CertError>
    // What is read is a certificate, and the bytes are its text.
    ensures found { IfOk result (λ c. IsCertificate c × (bytes.now ≡ certificate_text c)) }
    // Each certificate is read, unless memory runs out.
    ensures only { (c : List Certified) → IsCertificate c → bytes.now ≡ certificate_text c → Answers c result }
    // Which line it is where the bytes are none.
    ensures form { TellsLine bytes.now result }
{
    let mut left = lines_in(bytes);
    let read = left.cert(alloc);
    finish(bytes, left, read)
}

/// What is answered of these bytes, of which this was read and these lines are left.
fn finish(bytes: &[u8], left: Lines<'_>, read: Result<Cert, Stop>) -> Result<Cert, CertError>
    requires read { Gives (λ c. map block_of c) read left (cert_at (lines_of bytes.now)) }
    requires certified { IfOk read (λ c. AllByRecursion IsCertified c) }
    // What is read is a certificate, and the bytes are its text.
    ensures found { IfOk result (λ c. IsCertificate c × (bytes.now ≡ certificate_text c)) }
    // Each certificate is read, unless memory runs out.
    ensures only { (c : List Certified) → IsCertificate c → bytes.now ≡ certificate_text c → Answers c result }
    // Which line it is where the bytes are none.
    ensures form { TellsLine bytes.now result }
{
    match read {
        Err(stop) => match stop {
            Stop::Memory => Err(CertError::Memory),
            Stop::Form => Err(CertError::Form {
                line: line_at_stop(bytes, &left),
            }),
        },
        Ok(cert) => {
            if left.count() == 0 {
                Ok(cert)
            } else {
                Err(CertError::Form {
                    line: line_at_stop(bytes, &left),
                })
            }
        }
    }
}
