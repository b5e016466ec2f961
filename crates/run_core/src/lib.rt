//! The machine of several workers: its states, its events, and what every state that comes about keeps; and the computation with one worker.
#![tactic(auto)]

mod core_seat;
mod core_state;
mod counts;
mod event;
mod ghost_hand;
pub mod laws;
mod machine;
mod plain_board;
mod plain_run;
mod plain_worker;
mod replay;
mod workspace;

pub use core_state::CoreState;
pub use counts::Counts;
pub use event::Event;
pub use plain_board::{PlainBoard, copy_entry};
pub use plain_run::{Finished, run_plain};
pub use workspace::{Workspace, has_reduced, is_stuck};
