//! What a worker passes after it has claimed a ticket.

/// It is told of each claim, once: of the worker's number and the ticket. It returns, and promises nothing.
pub trait Gate: Sync {
    fn passed(&self, worker: u32, ticket: u64);
}

/// A gate that does nothing.
#[derive(Clone, Copy, Debug, PartialEq, Eq)]
pub struct OpenGate;

impl Gate for OpenGate {
    fn passed(&self, _worker: u32, _ticket: u64) {}
}
