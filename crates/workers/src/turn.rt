//! How a turn ends.

/// A turn carried a ticket to its end, or there was none.
#[derive(Clone, Copy, Debug, PartialEq, Eq)]
pub enum Turn {
    Worked,
    Idle,
}
