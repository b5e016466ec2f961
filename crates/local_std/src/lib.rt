//! What the program `lstd` does: `run_lstd`, its top call, and the contract that says what it writes.
//!
//! `specs/Due.antt` says which status and which texts are due for which words and input, and `specs/Answer.antt`
//! what answers a script, by the definitions of ideals alone.
#![tactic(auto)]

mod answer;
mod bench;
mod block;
mod cert_sink;
mod certificate;
pub mod laws;
mod outcome;
mod question;
mod refusal;
mod same;
mod solved;
mod top;
mod verdict;
mod words;

pub use cert_sink::CertSink;
pub use outcome::Status;
pub use top::run_lstd;
pub use words::cert_path;
pub use workers::{Gate, OpenGate};
