//! Certificates, and the grammar of their texts.
//!
//! `specs/` says what a certificate is: `Lines` of a text, `Words` of a ring, `Cert` the lines of each certificate and what
//! is asked of it, `Form` which bytes are a certificate and at which line others go wrong; `Reading` how a text is read.
#![tactic(auto)]

mod block;
mod certified;
mod entry;
pub mod laws;
mod ring;

pub use block::{Block, Fitting, Verdict};
pub use certified::Certified;
pub use entry::{Entry, Step};
pub use ring::Ring;
