//! Workers at the shared board: each takes tickets in turns, and all together they make entries that settle every ticket.
#![tactic(auto)]

mod crew;
mod finish;
mod gate;
mod rounds;
mod runner;
mod turn;
mod turns;
mod worker;

pub use crew::Crew;
pub use gate::{Gate, OpenGate};
pub use rounds::run_rounds;
pub use turn::Turn;
pub use worker::Worker;
