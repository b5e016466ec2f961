//! One statement.

ghost use Rattle.std.specs.Prelude.{◌≡◌, ◌<◌, ◌≤◌, ◌+◌, ◌-◌, true, false, [], length, map, All, Contains, IfOk};
ghost use Rattle.local_order.specs.Limits.{max_generators};
ghost use Rattle.script_grammar.specs.Limits.{max_commands};
ghost use Rattle.std.specs.Str.{IsAscii};
ghost use Rattle.script_tokens.specs.PlaceView.{place_of};
ghost use Rattle.script_tokens.specs.TokenView.{token_of};
ghost use Rattle.script_grammar.specs.Statements.{is_on_poly, poly_at, ideal_at, command_at};
ghost use Rattle.script_grammar.specs.Script.{begins_later, command_of, statement_at};
ghost use Rattle.script_grammar.specs.Meaning.{ideal_subject, function_subject, value_in};
ghost use Rattle.expression_reader.specs.Gives.{Gives, meant};
ghost use Rattle.ring_reader.specs.Effects.{effect_of, IsSoundEffect};
ghost use Rattle.ring_reader.specs.After.{commands_asked};
ghost use Rattle.expression_reader.specs.NamesView.{declarations_of, values_of};
ghost use Rattle.expression_reader.specs.Sound.{IsSound};
ghost use Rattle.sparse_poly.specs.Ideal.{IsGenerator};
ghost use Rattle.ring_reader.specs.declared.effect.Effect.TheVariants.{Command as Commanded};

use crate::effect::Effect;
use crate::remark::{is_remark, remark};
use expression_reader::{
    NamedIdeal, NamedPoly, Names, Stop, argument, expression, known, members, new_name,
};
use script_grammar::{Command, Name, ReadKind, Subject, What, Word};
use script_tokens::{Place, behind, is_word, mark, refused};
use sparse_poly::{Polys, Problem};
use std::alloc::{AllocError, Global};

/// The greatest number of commands.
const MAX_COMMANDS: usize = 64;

/// A poly statement, from behind its word on.
#[tactic(auto, unfolding(script_grammar::specs::Statements::poly_at))]
fn poly<'a>(alloc: Global, names: &Names, here: Place<'a>) -> Result<(Effect, Place<'a>), Stop>
    requires sound { IsSound names.now }
    ensures gives { Gives (λ x. (x.0, place_of x.1)) result
        (meant (effect_of (values_of names.now)) (poly_at (declarations_of names.now) (place_of here.entry))) }
    ensures sound { IfOk result (λ x. IsSoundEffect names.now.field (length names.now.letters) names.now.d x.0) }
    ensures asked { IfOk result (λ x. commands_asked x.0 ≡ 0) }
    ensures shorter { IfOk result (λ x. x.1.left ≤ here.entry.left - 1) }
{
    let (word, after) = new_name(names, here)?;
    let after = mark(after, b'=', What::Equals)?;
    let (value, after) = expression(alloc, names, after)?;
    let after = mark(after, b';', What::Operator)?;
    let name = Name::new(alloc, word)?;
    let value = value.copy(alloc)?;
    Ok((Effect::Poly(NamedPoly { name, value }), after))
}

/// The generators of a declared ideal, once more.
fn same_generators(alloc: Global, names: &Names, ideal: &NamedIdeal) -> Result<Polys, AllocError>
    requires sound { IsSound names.now }
    requires there { Contains names.now.ideals.now ideal.now }
    ensures same { IfOk result (λ g. g ≡ ideal.now.gens) }
    ensures valid { IfOk result (All (IsGenerator names.now.field (length names.now.letters) names.now.d)) }
    ensures few { IfOk result (λ g. length g ≤ max_generators) }
{
    ideal.gens.copy(alloc)
}

/// An ideal statement, from behind its word on.
#[tactic(auto, unfolding(script_grammar::specs::Statements::ideal_at))]
fn ideal<'a>(alloc: Global, names: &Names, here: Place<'a>) -> Result<(Effect, Place<'a>), Stop>
    requires sound { IsSound names.now }
    ensures gives { Gives (λ x. (x.0, place_of x.1)) result
        (meant (effect_of (values_of names.now)) (ideal_at (declarations_of names.now) (place_of here.entry))) }
    ensures sound { IfOk result (λ x. IsSoundEffect names.now.field (length names.now.letters) names.now.d x.0) }
    ensures asked { IfOk result (λ x. commands_asked x.0 ≡ 0) }
    ensures shorter { IfOk result (λ x. x.1.left ≤ here.entry.left - 1) }
{
    let (word, after) = new_name(names, here)?;
    let start = mark(after, b'=', What::Equals)?;
    if is_word(start, b"std") {
        let (other, after) = argument(names.ideals, behind(start))?;
        let after = mark(after, b';', What::Semicolon)?;
        let gens = same_generators(alloc, names, other)?;
        let name = Name::new(alloc, word)?;
        return Ok((Effect::Ideal(NamedIdeal { name, gens }), after));
    }
    let (gens, after) = members(alloc, names, start)?;
    let gens = Polys::from_vec(gens);
    let name = Name::new(alloc, word)?;
    Ok((Effect::Ideal(NamedIdeal { name, gens }), after))
}

/// A command on an ideal.
fn ideal_command(
    alloc: Global,
    names: &Names,
    word: Word,
    ideal: &NamedIdeal,
) -> Result<Effect, AllocError>
    requires sound { IsSound names.now }
    requires there { Contains names.now.ideals.now ideal.now }
    requires value { value_in (values_of names.now).ideals [] ideal.now.name ≡ map (λ f. f.terms) ideal.now.gens }
    requires ascii { IsAscii ideal.now.name }
    requires word { is_on_poly word ≡ false }
    ensures command { IfOk result (λ e. e ≡ Commanded (record { word = word; name = ideal.now.name; subject = ideal_subject (values_of names.now) ideal.now.name })) }
    ensures sound { IfOk result (IsSoundEffect names.now.field (length names.now.letters) names.now.d) }
{
    let gens = same_generators(alloc, names, ideal)?;
    let problem = Problem::new(names.field, names.letters.len() as u32, names.d, gens);
    let name = Name::new(alloc, ideal.name.bytes())?;
    Ok(Effect::Command(Command {
        word,
        name,
        subject: Subject::Ideal(problem),
    }))
}

/// A command on a polynomial.
fn function_command(
    alloc: Global,
    names: &Names,
    word: Word,
    f: &NamedPoly,
) -> Result<Effect, AllocError>
    requires sound { IsSound names.now }
    requires there { Contains names.now.polys.now f.now }
    requires value { value_in (values_of names.now).polys [] f.now.name ≡ f.now.value.terms }
    requires ascii { IsAscii f.now.name }
    requires word { is_on_poly word ≡ true }
    ensures command { IfOk result (λ e. e ≡ Commanded (record { word = word; name = f.now.name; subject = function_subject (values_of names.now) f.now.name })) }
    ensures sound { IfOk result (IsSoundEffect names.now.field (length names.now.letters) names.now.d) }
{
    let value = f.value.copy(alloc)?;
    let name = Name::new(alloc, f.name.bytes())?;
    Ok(Effect::Command(Command {
        word,
        name,
        subject: Subject::Function(value),
    }))
}

/// Whether the word asks of a polynomial.
fn asks_of_poly(word: Word) -> bool
    ensures { result ≡ is_on_poly word }
{
    matches!(word, Word::Milnor | Word::Tjurina)
}

/// A command, from behind its word on.
#[tactic(auto, unfolding(script_grammar::specs::Statements::command_at))]
fn command<'a>(
    alloc: Global,
    names: &Names,
    word: Word,
    here: Place<'a>,
) -> Result<(Effect, Place<'a>), Stop>
    requires sound { IsSound names.now }
    ensures gives { Gives (λ x. (x.0, place_of x.1)) result
        (meant (effect_of (values_of names.now)) (command_at (declarations_of names.now) word (place_of here.entry))) }
    ensures sound { IfOk result (λ x. IsSoundEffect names.now.field (length names.now.letters) names.now.d x.0) }
    ensures shorter { IfOk result (λ x. x.1.left ≤ here.entry.left - 1) }
{
    if asks_of_poly(word) {
        let (f, after) = argument(names.polys, here)?;
        let after = mark(after, b';', What::Semicolon)?;
        return Ok((function_command(alloc, names, word, f)?, after));
    }
    let opened = mark(here, b'(', What::Open)?;
    let (ideal, after) = if is_word(opened, b"std") {
        argument(names.ideals, behind(opened))?
    } else {
        known(names.ideals, opened)?
    };
    let after = mark(after, b')', What::Close)?;
    let after = mark(after, b';', What::Semicolon)?;
    Ok((ideal_command(alloc, names, word, ideal)?, after))
}

/// The word of a command.
fn command_word(here: Place) -> Option<Word>
    ensures which { result ≡ command_of (token_of here.entry.token) }
{
    if is_word(here, b"std") {
        Some(Word::Std)
    } else if is_word(here, b"vdim") {
        Some(Word::Vdim)
    } else if is_word(here, b"kbase") {
        Some(Word::Kbase)
    } else if is_word(here, b"highcorner") {
        Some(Word::HighCorner)
    } else if is_word(here, b"milnor") {
        Some(Word::Milnor)
    } else if is_word(here, b"tjurina") {
        Some(Word::Tjurina)
    } else {
        None
    }
}

/// A statement behind so many commands.
#[tactic(auto, unfolding(script_grammar::specs::Script::statement_at))]
pub(crate) fn statement<'a>(
    alloc: Global,
    names: &Names,
    count: usize,
    here: Place<'a>,
) -> Result<(Effect, Place<'a>), Stop>
    requires sound { IsSound names.now }
    requires few { count ≤ max_commands }
    ensures gives { Gives (λ x. (x.0, place_of x.1)) result
        (meant (effect_of (values_of names.now)) (statement_at (declarations_of names.now) count (place_of here.entry))) }
    ensures sound { IfOk result (λ x. IsSoundEffect names.now.field (length names.now.letters) names.now.d x.0) }
    ensures few { IfOk result (λ x. count + commands_asked x.0 ≤ max_commands) }
    ensures shorter { IfOk result (λ x. x.1.left < here.entry.left) }
{
    if is_remark(here) {
        return Ok((Effect::Nothing, remark(here)?));
    }
    if is_word(here, b"poly") {
        return poly(alloc, names, behind(here));
    }
    if is_word(here, b"ideal") {
        return ideal(alloc, names, behind(here));
    }
    let Some(word) = command_word(here) else {
        return Err(Stop::Refused(refused(here, ReadKind::Expected(What::Statement))));
    };
    if count == MAX_COMMANDS {
        return Err(Stop::Refused(refused(here, ReadKind::TooManyCommands)));
    }
    command(alloc, names, word, behind(here))
}

/// Whether a statement behind the noether statement begins here.
pub(crate) fn begins_statement(here: Place) -> bool
    ensures { result ≡ begins_later (token_of here.entry.token) }
{
    is_word(here, b"poly") || is_word(here, b"ideal") || command_word(here).is_some()
}
