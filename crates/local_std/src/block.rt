// The blocks that answer the commands of a script.
ghost use Rattle.std.specs.Prelude.{◌≡◌, ◌+◌, ◌<◌, ◌≤◌, ◌++◌, ℕ, List, length, All, IfOk, Some, slice_get, string_bytes};
ghost use Rattle.std.specs.Bool.{OnTrue, OnFalse};
ghost use Rattle.sparse_poly.specs.Ideal.{Fits};
ghost use Rattle.ring_reader.specs.Coherent.{IsCoherent, BelongsTo};
ghost use Rattle.text_out.specs.Answers.{IsInRing};
ghost use Rattle.local_std.specs.declared.solved.Solved.{Solved as SolvedProblem};
ghost use Rattle.local_std.specs.Solved.{IsSolved, IsPlaceOf};
ghost use Rattle.local_std.specs.Answer.{problem_of, IsAnswerOf, IsBlock};
ghost use Rattle.local_std.specs.Answered.{AreAnswered, status_of};
ghost use Rattle.local_std.specs.Words.{max_workers};
ghost use Rattle.script_grammar.specs.declared.script.Command.{Command as SomeCommand};
ghost use Rattle.script_grammar.specs.declared.script.Script.{Script as SomeScript};

use crate::answer::{answer_of, is_fitting};
use crate::outcome::Status;
use crate::question::question_of;
use crate::solved::{Solved, place_among};
use ring_reader::{Command, Script};
use std::alloc::{AllocError, Global};
use std::thread::Threads;
use text_out::{Answer, block_text};
use workers::Gate;

/// The block of a command, and whether the degree fits for it.
#[derive(Drop)]
struct Block {
    fits: bool,
    text: String,
}

/// The blocks of the first commands, behind what stands in front; whether the degree fits for each; and the problems that were
/// solved, each once.
#[derive(Drop)]
pub struct Blocks<'a> {
    pub fits: bool,
    pub text: String,
    pub solved: Vec<Solved<'a>>,
}

impl<'a> Blocks<'a> {
    /// No block yet, behind what stands in front.
    pub fn behind(alloc: Global, front: String) -> Blocks<'a>
        ensures answered { (s : SomeScript) → AreAnswered s (string_bytes front) 0 result.fits (string_bytes result.text) }
        ensures solved { All IsSolved result.solved.items }
    {
        Blocks {
            fits: true,
            text: front,
            solved: Vec::new(alloc),
        }
    }

    /// The status of an answer with these blocks.
    pub fn status(&self) -> Status
        ensures { result ≡ status_of self.now.fits }
    {
        if self.fits {
            Status::Fits
        } else {
            Status::TooSmall
        }
    }

    /// Answers command `k` behind those before it, and tells the place of its problem among those that were solved. A problem that
    /// several commands have is solved once.
    pub fn push<R: Threads + Sync, G: Gate>(
        &mut self,
        rt: &R,
        alloc: Global,
        script: &'a Script,
        k: usize,
        workers: u32,
        gate: &G,
    ) -> Result<usize, AllocError>
        requires some { 1 ≤ workers }
        requires few { workers ≤ max_workers }
        requires coherent { IsCoherent script.now }
        requires within { k < length script.now.commands }
        requires solved { All IsSolved self.old.solved.items }
        ensures answered { IfOk result (λ place. (front : List ℕ) → AreAnswered script.now front k self.old.fits (string_bytes self.old.text)
            → AreAnswered script.now front (k + 1) self.new.fits (string_bytes self.new.text)) }
        ensures solved { IfOk result (λ place. All IsSolved self.new.solved.items) }
        ensures place { IfOk result (λ place. (c : SomeCommand) → slice_get script.now.commands k ≡ Some c
            → IsPlaceOf (problem_of script.now c) self.new.solved.items place) }
    {
        let command = script.commands.get(k);
        let place = place_of(rt, alloc, script, command, &mut self.solved, workers, gate)?;
        let block = block_at(alloc, script, k as u32 + 1, command, &self.solved, place)?;
        self.text.push_str(&block.text)?;
        self.fits = self.fits && block.fits;
        Ok(place)
    }
}

/// The place of a command's problem among those that were solved. It is solved, unless it is among them.
fn place_of<'a, R: Threads + Sync, G: Gate>(
    rt: &R,
    alloc: Global,
    script: &Script,
    command: &'a Command,
    solved: &mut Vec<Solved<'a>>,
    workers: u32,
    gate: &G,
) -> Result<usize, AllocError>
    requires some { 1 ≤ workers }
    requires few { workers ≤ max_workers }
    requires coherent { IsCoherent script.now }
    requires belongs { BelongsTo script.now command.now }
    requires solved { All IsSolved solved.old.items }
    ensures solved { IfOk result (λ place. All IsSolved solved.new.items) }
    ensures place { IfOk result (IsPlaceOf (problem_of script.now command.now) solved.new.items) }
    ensures kept { IfOk result (λ place. (more : List SolvedProblem) × (solved.new.items ≡ solved.old.items ++ more)) }
{
    let question = question_of(alloc, script, command)?;
    if let Some(place) = place_among(solved, question.problem()) {
        return Ok(place);
    }
    let (finished, answer) = answer_of(rt, alloc, question.problem(), workers, gate)?;
    let place = solved.len();
    solved.push(Solved {
        question,
        entries: finished.entries,
        answer,
    })?;
    Ok(place)
}

/// The block of a command with its number, whose problem stands at this place among those that were solved.
fn block_at(
    alloc: Global,
    script: &Script,
    index: u32,
    command: &Command,
    solved: &[Solved<'_>],
    place: usize,
) -> Result<Block, AllocError>
    requires belongs { BelongsTo script.now command.now }
    requires solved { All IsSolved solved.now }
    requires place { IsPlaceOf (problem_of script.now command.now) solved.now place }
    ensures text { IfOk result (λ b. IsBlock script.now index command.now (string_bytes b.text)) }
    ensures fits { IfOk result (λ b. OnTrue b.fits (Fits (problem_of script.now command.now))) }
    ensures small { IfOk result (λ b. OnFalse b.fits (Fits (problem_of script.now command.now) → ⊥)) }
{
    block_with(alloc, script, index, command, &solved[place].answer)
}

/// The block of a command whose problem has this answer.
fn block_with(
    alloc: Global,
    script: &Script,
    index: u32,
    command: &Command,
    answer: &Answer,
) -> Result<Block, AllocError>
    requires belongs { BelongsTo script.now command.now }
    requires ring { IsInRing (problem_of script.now command.now).p (problem_of script.now command.now).n answer.now }
    requires value { IsAnswerOf (problem_of script.now command.now) answer.now }
    ensures text { IfOk result (λ b. IsBlock script.now index command.now (string_bytes b.text)) }
    ensures fits { IfOk result (λ b. OnTrue b.fits (Fits (problem_of script.now command.now))) }
    ensures small { IfOk result (λ b. OnFalse b.fits (Fits (problem_of script.now command.now) → ⊥)) }
{
    let text = block_text(alloc, index, &script.names, command, answer)?;
    Ok(Block {
        fits: is_fitting(answer),
        text,
    })
}
