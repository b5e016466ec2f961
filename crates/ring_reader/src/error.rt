//! Why a script could not be read.

use script_grammar::ReadKind;
use thiserror::Error;

/// Why a script could not be read.
#[derive(Clone, Copy, Debug, PartialEq, Eq, Error)]
pub enum ReadError {
    /// The first refusal, at its line and column, both counted from 1; a column counts bytes.
    #[error("refused at line {line}, column {column}")]
    At {
        line: u32,
        column: u32,
        kind: ReadKind,
    },
    /// Memory ran out.
    #[error("out of memory")]
    Memory,
}
