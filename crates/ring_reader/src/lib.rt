//! Reads scripts: `read_script` gives what a script asks for, or the first refusal in it, with its line and column.
//!
//! The grammar, its meaning and the table of refusals are in `script_grammar`; each function here gives what the function
//! of the same meaning gives there, with values in place of trees.
#![tactic(auto)]

mod effect;
mod error;
mod noether;
mod remark;
mod ring;
mod scope;
mod script;
mod statement;

pub use error::ReadError;
pub use script::read_script;
pub use script_grammar::{Command, Commands, Name, ReadKind, Script, Subject, What, Word};
