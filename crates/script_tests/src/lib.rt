//! Tests of whole scripts: what the reader makes of one, and what the top call answers.
//!
//! They stand in a crate of their own, as those of `room_tests` do.
#![tactic(auto)]

#[cfg(test)]
mod answers;
#[cfg(test)]
mod certificates;
#[cfg(test)]
mod checks;
#[cfg(test)]
mod crews;
#[cfg(test)]
mod faults;
#[cfg(test)]
mod hostile;
#[cfg(test)]
mod reading;
#[cfg(test)]
mod run;
#[cfg(test)]
mod singularities;
#[cfg(test)]
mod words;
