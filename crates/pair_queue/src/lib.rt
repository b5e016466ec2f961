//! Tickets: the items of a standard basis computation by number, and the criteria by which a pair of entries is skipped.
#![tactic(auto)]

mod criteria;
mod tickets;

pub use criteria::skip;
pub use mora_law::Skip;
pub use tickets::{MAX_ENTRIES, item_of, ticket_of, total};
