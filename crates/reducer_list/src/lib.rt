//! The board that workers share: one list of entries that only grows, a ticket number and the corner word, as words of one table, with no
//! lock and no waiting.
#![tactic(auto)]

mod answers;
mod board;
mod look;
mod open;
mod publish;
mod rule;
mod seat;
mod seats;

pub use answers::{Claim, Look, Publish};
pub use board::SharedBoard;
pub use seat::{BoardSeat, MAX_WORKERS};
