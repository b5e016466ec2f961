//! Reading the text of certificates.
//!
//! A text is a certificate exactly where `cert_grammar` says so; `read_cert` gives it, or the first line that no
//! certificate has. `specs/` says what calls answer: `Answers` of `read_cert`, `Gives` of the calls that read a part.
#![tactic(auto)]

mod blocks;
mod certificate;
mod certify;
mod error;
mod heads;
mod lines;
mod members;
mod read;
mod ring;
mod stop;
mod vars;
mod verdict;
mod words;

pub use certificate::Cert;
pub use error::CertError;
pub use read::read_cert;
