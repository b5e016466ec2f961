// What a command asks: the problem of the ideal that it speaks of, or that of its function.
ghost use Rattle.std.specs.Prelude.{◌≡◌, ◌+◌, true, length, IfOk};
ghost use Rattle.script_grammar.specs.Statements.{is_on_poly};
ghost use Rattle.sparse_poly.specs.Ideal.{IsGenerator};
ghost use Rattle.ring_reader.specs.Coherent.{IsCoherent, BelongsTo};
ghost use Rattle.local_std.specs.Answer.{problem_of, function_problem as problem_of_function};
ghost use Rattle.local_std.specs.Solved.{problem_asked};

use ring_reader::{Command, Script, Subject, Word};
use singularity_numbers::{milnor_problem, tjurina_problem};
use sparse_poly::{Poly, Problem};
use std::alloc::{AllocError, Global};

/// The problem of a command.
#[derive(Drop)]
pub enum Question<'a> {
    /// That of its ideal, which the script has.
    Given(&'a Problem),
    /// That of its function, which is made.
    Made(Problem),
}

impl Question<'_> {
    /// The problem.
    pub fn problem(&self) -> &Problem
        ensures { result.now ≡ problem_asked self.now }
    {
        match self {
            Question::Given(problem) => problem,
            Question::Made(problem) => problem,
        }
    }
}

/// The question of a command.
pub fn question_of<'a>(
    alloc: Global,
    script: &Script,
    command: &'a Command,
) -> Result<Question<'a>, AllocError>
    requires coherent { IsCoherent script.now }
    requires belongs { BelongsTo script.now command.now }
    ensures { IfOk result (λ q. problem_asked q ≡ problem_of script.now command.now) }
{
    match &command.subject {
        Subject::Ideal(problem) => Ok(Question::Given(problem)),
        Subject::Function(f) => {
            let problem = function_problem(alloc, script, command.word, f)?;
            Ok(Question::Made(problem))
        }
    }
}

/// The problem of a word that is asked of a function.
fn function_problem(
    alloc: Global,
    script: &Script,
    word: Word,
    f: &Poly,
) -> Result<Problem, AllocError>
    requires coherent { IsCoherent script.now }
    requires word { is_on_poly word ≡ true }
    requires function { IsGenerator script.now.field (length script.now.names) (script.now.d + 1) f.now }
    ensures { IfOk result (λ P. P ≡ problem_of_function word script.now.field (length script.now.names) script.now.d f.now.terms) }
{
    let n = script.names.len() as u32;
    match word {
        Word::Milnor => milnor_problem(alloc, &script.field, n, script.d, f),
        Word::Tjurina => tjurina_problem(alloc, &script.field, n, script.d, f),
        _ => unreachable!(),
    }
}
