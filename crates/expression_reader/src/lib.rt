//! Reads polynomials and the members of ideals, with the values of what was declared before.
//!
//! The grammar and its meaning are in `script_grammar`; each function here gives what the function of the same meaning
//! gives there, with values in place of trees.
#![tactic(auto)]

mod expressions;
mod generators;
mod lookup;
mod names;
mod stop;
mod values;

pub use expressions::expression;
pub use generators::members;
pub use lookup::{Declared, argument, known, new_name};
pub use names::{NamedIdeal, NamedPoly, Names};
pub use stop::Stop;
