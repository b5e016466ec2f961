//! Whole scripts.

ghost use Rattle.std.specs.Prelude.{◌≡◌, ◌<◌, ◌≤◌, ◌&&◌, nat_le, length, All, IfOk, Ok};
ghost use Rattle.local_order.specs.Limits.{max_degree, max_monomials};
ghost use Rattle.script_grammar.specs.Limits.{max_commands, max_script};
ghost use Rattle.prime_field.specs.Prime.{InTable};
ghost use Rattle.local_order.specs.Count.{monomial_count};
ghost use Rattle.sparse_poly.specs.Letters.{AreLetters};
ghost use Rattle.script_tokens.specs.PlaceView.{place_of};
ghost use Rattle.script_tokens.specs.TokenView.{token_of};
ghost use Rattle.script_tokens.specs.Reads.{ReadsAs};
ghost use Rattle.script_grammar.specs.Words.{is_the_end};
ghost use Rattle.script_grammar.specs.Trees.{Tree};
ghost use Rattle.script_grammar.specs.Statements.{degree_of};
ghost use Rattle.script_grammar.specs.Script.{noether_part, position_from};
ghost use Rattle.script_grammar.specs.Valid.{IsScript};
ghost use Rattle.script_grammar.specs.Meaning.{meaning};
ghost use Rattle.ring_reader.specs.Answers.{Answers, asked_by};
ghost use Rattle.ring_reader.specs.Coherent.{IsCoherent, IsCommandIn};
ghost use Rattle.expression_reader.specs.Gives.{Gives, meant};
ghost use Rattle.ring_reader.specs.Parts.{script_parts, statements_part};
ghost use Rattle.ring_reader.specs.RingView.{ring_of};

use crate::error::ReadError;
use crate::noether::noether;
use crate::remark::remarks;
use crate::ring::{Ring, ring_statement};
use crate::scope::Scope;
use crate::statement::{begins_statement, statement};
use expression_reader::{Names, Stop};
use script_grammar::{Command, Commands, ReadKind, Refusal, Script, What};
use script_tokens::{Place, Token, behind, is_word, next_token, refused};
use sparse_poly::Letters;
use std::alloc::Global;

/// Whether the script is over: only behind a command may the end come.
fn is_over(count: usize, here: Place) -> bool
    ensures { result ≡ (nat_le 1 count && is_the_end (token_of here.entry.token)) }
{
    count >= 1 && matches!(here.token, Token::End)
}

/// The commands of the statements up to the end.
fn statements(
    alloc: Global,
    ring: &Ring<'_>,
    d: u32,
    start: Place<'_>,
) -> Result<Vec<Command>, Stop>
    requires offered { InTable ring.now.field }
    requires letters { AreLetters ring.now.letters }
    requires some { 1 ≤ d }
    requires low { d ≤ max_degree }
    requires few { monomial_count (length ring.now.letters) d ≤ max_monomials }
    ensures gives { Gives (λ v. v.items) result (statements_part (ring_of ring.now) d (place_of start.entry)) }
    ensures asked { IfOk result (λ v. 1 ≤ length v.items) }
    ensures few { IfOk result (λ v. length v.items ≤ 64) }
    ensures belong { IfOk result (λ v. All (IsCommandIn ring.now.field (length ring.now.letters) d) v.items) }
{
    let mut scope = Scope::new(alloc);
    let mut here = start;
    while !is_over(scope.commands.len(), here) {
        let names = Names {
            ring: ring.name,
            field: ring.field,
            letters: ring.letters,
            d,
            polys: &scope.polys,
            ideals: &scope.ideals,
        };
        let (effect, after) = statement(alloc, &names, scope.commands.len(), here)?;
        scope.apply(effect)?;
        here = after;
    }
    Ok(scope.commands)
}

/// The noether degree, from the word `noether` on. Another statement there is refused as such.
fn noether_degree<'a>(letters: &Letters, here: Place<'a>) -> Result<(u32, Place<'a>), Refusal>
    requires { AreLetters letters.now }
    ensures reads { ReadsAs (λ x. (x.0, place_of x.1)) result (meant degree_of (noether_part letters.now (place_of here.entry))) }
    ensures some { IfOk result (λ x. 1 ≤ x.0) }
    ensures low { IfOk result (λ x. x.0 ≤ max_degree) }
    ensures few { IfOk result (λ x. monomial_count (length letters.now) x.0 ≤ max_monomials) }
{
    if is_word(here, b"noether") {
        return noether(letters, behind(here));
    }
    if begins_statement(here) {
        return Err(refused(here, ReadKind::MissingNoether));
    }
    Err(refused(here, ReadKind::Expected(What::Noether)))
}

/// A script from its first token on.
fn script(alloc: Global, here: Place<'_>) -> Result<Script, Stop>
    ensures gives { Gives (λ s. s) result (script_parts (place_of here.entry)) }
    ensures coherent { IfOk result IsCoherent }
{
    let here = remarks(here)?;
    if !is_word(here, b"ring") {
        return Err(Stop::Refused(refused(here, ReadKind::Expected(What::Ring))));
    }
    let (ring, after) = match ring_statement(alloc, behind(here)) {
        Ok(found) => found,
        Err(stop) => return Err(stop),
    };
    let here = remarks(after)?;
    let (d, after) = noether_degree(&ring.letters, here)?;
    let commands = statements(alloc, &ring, d, after)?;
    Ok(Script {
        names: ring.letters,
        field: ring.field,
        d,
        commands: Commands::from_vec(commands),
    })
}

/// The line and the column behind the bytes.
fn position(bytes: &[u8]) -> (u32, u32)
    requires { length bytes.now ≤ max_script }
    ensures { (result.0, result.1) ≡ position_from 1 1 bytes.now }
{
    let mut line = 1;
    let mut column = 1;
    for b in bytes {
        if *b == b'\n' {
            line += 1;
            column = 1;
        } else {
            column += 1;
        }
    }
    (line, column)
}

/// The script of these bytes, or its first refusal with its position.
fn located_script(alloc: Global, bytes: &[u8]) -> Result<Script, ReadError>
    requires { length bytes.now ≤ max_script }
    ensures exact { Answers bytes.now result (asked_by bytes.now) }
    ensures coherent { IfOk result IsCoherent }
{
    match script(alloc, next_token(bytes)) {
        Ok(script) => Ok(script),
        Err(Stop::Memory) => Err(ReadError::Memory),
        Err(Stop::Refused(refusal)) => {
            let at = bytes.len().saturating_sub(refusal.left);
            let (line, column) = position(&bytes[..at]);
            Err(ReadError::At {
                line,
                column,
                kind: refusal.kind,
            })
        }
    }
}

/// What the script of these bytes asks for, or the first refusal in them.
pub fn read_script(alloc: Global, bytes: &[u8]) -> Result<Script, ReadError>
    requires { length bytes.now ≤ max_script }
    // What is read is a script of the grammar, with its meaning.
    ensures found { IfOk result (λ s. (t : Tree) × IsScript bytes.now t × (s ≡ meaning t)) }
    // Each script of the grammar is read, unless memory runs out.
    ensures only { (t : Tree) → IsScript bytes.now t → Answers bytes.now result (Ok (meaning t)) }
    // Which refusal it is, and where: the first one.
    ensures exact { Answers bytes.now result (asked_by bytes.now) }
    // Its commands speak of one ring and one degree, within the limits.
    ensures coherent { IfOk result IsCoherent }
{
    located_script(alloc, bytes)
}
