//! Tests of certificates: what the checker answers to them and to changes of them, and that they are read and written again.
//!
//! They stand in a crate of their own, as those of `room_tests` do.
#![tactic(auto)]

#[cfg(test)]
mod again;
#[cfg(test)]
mod answers;
#[cfg(test)]
mod texts;
