// The problems that were solved for a script, each once.
ghost use Rattle.std.specs.Prelude.{◌≡◌, All, Some, slice_get, IfSome, IfNone};
ghost use Rattle.local_std.specs.Solved.{problem_asked, IsPlaceOf};

use crate::question::Question;
use crate::same::is_same_problem;
use entry_code::Entries;
use sparse_poly::Problem;
use text_out::Answer;

/// A question, the entries of a run for its problem, and the answer.
#[derive(Drop)]
pub struct Solved<'a> {
    pub question: Question<'a>,
    pub entries: Entries,
    pub answer: Answer,
}

/// The place of the problem among those that were solved: there is none exactly where no problem that was solved is the same.
pub fn place_among(solved: &[Solved<'_>], problem: &Problem) -> Option<usize>
    ensures place { IfSome result (IsPlaceOf problem.now solved.now) }
    ensures none { IfNone result (All (λ one. problem_asked one.question ≡ problem.now → ⊥) solved.now) }
{
    for place in 0..solved.len() {
        if is_same_problem(solved[place].question.problem(), problem) {
            return Some(place);
        }
    }
    None
}
