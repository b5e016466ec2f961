//! What the calls give.

/// What a claim gives: no ticket is left among those of the entries that the seat knows; the ticket; or a later ticket number, which
/// another seat had reached.
#[derive(Clone, Copy, Debug, PartialEq, Eq)]
pub enum Claim {
    NoneKnown,
    Claimed(u64),
    Later(u64),
}

/// What a publication gives: the place of the entry in the list; or the list is longer than the seat knows.
#[derive(Clone, Copy, Debug, PartialEq, Eq)]
pub enum Publish {
    Published(u32),
    Longer,
}

/// What a look gives: no entry stands behind those that the seat knows; or the place of the one that it now knows.
#[derive(Clone, Copy, Debug, PartialEq, Eq)]
pub enum Look {
    Nothing,
    Learnt(u32),
}
