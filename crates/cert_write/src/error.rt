//! Why a block isn't written whole.

use thiserror::Error;

/// Why a block of a certificate was not written whole.
#[derive(Clone, Copy, Debug, PartialEq, Eq, Error)]
pub enum CertWriteError {
    /// The sink failed, and counted it.
    #[error("the sink failed")]
    Failed,
    /// Memory ran out.
    #[error("out of memory")]
    Memory,
}
