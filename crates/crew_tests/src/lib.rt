//! Tests of the crew on worked examples: any number of workers, one worker turn by turn, two that run beside each other, and the plain
//! program beside them.
#![tactic(auto)]

#[cfg(test)]
mod crew;
#[cfg(test)]
mod plain;
#[cfg(test)]
mod problems;
#[cfg(test)]
mod two_threads;
