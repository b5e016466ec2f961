//! Writing certificates to any sink: the first line, the block of each problem, the last line.
//!
//! What is written is the text that `cert_grammar` gives. `specs/` says what a call has done: `Writes`; and which block is
//! written of a problem, its entries and its answer: `Claim`.
#![tactic(auto)]

mod block;
mod entry;
mod error;
mod front;
mod lines;
mod verdict;
mod write;

pub use block::write_block;
pub use error::CertWriteError;
pub use write::{write_done, write_head};
