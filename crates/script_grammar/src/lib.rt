//! The language of scripts: its tokens, its grammar, what a script means, and which refusal is the first one.
//!
//! `specs/` says it all: `Tokens`, `Spelling` and `Ends` what bytes are cut into, `Trees` the grammar, `Valid` the rules on names
//! and limits, `Meaning` what a script asks for; `Expressions`, `Statements` and `Script` read from left to right and are
//! at the same time the table of refusals; `First` says what the first refusal is, with `Formed` for the shape of a script.
//! `laws` has what these say of each other, with `Places` for the facts that it names on places, and worked scripts.
#![tactic(auto)]

pub mod laws;
mod refusal;
mod script;

pub use refusal::{ReadKind, Refusal, What};
pub use script::{Command, Commands, Name, Script, Subject, Word};
