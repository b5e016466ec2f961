//! The checker of certificates: what is checked of a block, line by line, and what an accepted block says of its problem.
#![tactic(auto)]

mod basis;
mod block;
mod certificate;
mod choice;
mod division;
mod entry;
mod fault;
pub mod laws;
mod places;
mod reading;
mod reason;
mod reduce;
mod sparse;
mod start;
mod step;
mod tickets;
mod verdict;

pub use block::check_block;
pub use certificate::{Verdict, check};
pub use fault::Fault;
pub use reason::Reason;
