//! What is certified of a problem.

use entry_code::Entries;
use local_order::Mono;
use sparse_poly::{Letters, Problem};
use text_out::Answer;

/// A problem with the letters of its variables, the entries of a run, an answer, and the highest corner where one is named.
#[derive(Drop)]
pub struct Certified {
    pub letters: Letters,
    pub problem: Problem,
    pub entries: Entries,
    pub answer: Answer,
    pub corner: Option<Mono>,
}
