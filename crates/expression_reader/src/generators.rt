//! The members of an ideal, read to its generators.

ghost use Rattle.std.specs.Prelude.{◌≡◌, ◌<◌, ◌≤◌, ◌-◌, ◌++◌, true, length, All, IfOk, OnOk, Err};
ghost use Rattle.local_order.specs.Limits.{max_generators};
ghost use Rattle.sparse_poly.specs.Poly.{cut};
ghost use Rattle.script_tokens.specs.PlaceView.{place_of};
ghost use Rattle.script_grammar.specs.Tokens.{Place as Lexed};
ghost use Rattle.script_grammar.specs.Trees.{Member};
ghost use Rattle.script_grammar.specs.Statements.{no_room as no_room_at, no_room_kind, member_at, members_from};
ghost use Rattle.expression_reader.specs.Gives.{Gives, meant};
ghost use Rattle.expression_reader.specs.Generators.{jacobian_gens, member_gens, members_gens};
ghost use Rattle.expression_reader.specs.NamesView.{declarations_of, values_of};
ghost use Rattle.expression_reader.specs.Sound.{IsSound, IsValue};
ghost use Rattle.sparse_poly.specs.Ideal.{IsGenerator};

use crate::expressions::expression;
use crate::lookup::{has, known};
use crate::names::Names;
use crate::stop::Stop;
use script_grammar::{ReadKind, Refusal, What};
use script_tokens::{
    Place, Token, behind, has_large, is_keyword, is_mark, is_numeral, is_short, is_word, mark,
    refused,
};
use sparse_poly::{MAX_GENERATORS, Poly};
use std::alloc::{AllocError, Global};

/// The refusal of the member that brings an ideal above the greatest number of generators: at its first token,
/// unless that token itself is refused.
fn no_room(names: &Names, here: Place) -> Refusal
    ensures { no_room_at {A = Member × Lexed} (declarations_of names.now) (place_of here.entry) ≡ Err result }
{
    match here.token {
        Token::Word(word) => refused(here, no_room_for(names, word)),
        Token::Mark(b'(' | b'+' | b'-') => refused(here, ReadKind::TooManyGenerators),
        _ => refused(here, ReadKind::Expected(What::Operand)),
    }
}

/// Why a word is refused where an ideal has no room for a member.
fn no_room_for(names: &Names, word: &[u8]) -> ReadKind
    ensures { result ≡ no_room_kind (declarations_of names.now) word.now }
{
    if is_numeral(word) {
        ReadKind::TooManyGenerators
    } else if is_keyword(word) {
        ReadKind::UnknownName
    } else if has(names.polys, word) {
        ReadKind::TooManyGenerators
    } else if !is_short(names.letters.bytes(), word) {
        ReadKind::UnknownName
    } else if has_large(word) {
        ReadKind::ExponentTooLarge
    } else {
        ReadKind::TooManyGenerators
    }
}

/// A polynomial as a generator: cut beyond the noether degree, with room for its terms alone.
fn generator(alloc: Global, names: &Names, f: &Poly) -> Result<Poly, AllocError>
    requires value { IsValue names.now.field (length names.now.letters) f.now }
    ensures terms { IfOk result (λ g. g ≡ record { n = length names.now.letters; terms = cut names.now.d f.now.terms }) }
    ensures valid { IfOk result (IsGenerator names.now.field (length names.now.letters) names.now.d) }
{
    f.cut(alloc, names.d)?.copy(alloc)
}

/// Puts the derivatives of a polynomial in the order of the variables at the end of the generators.
#[tactic(auto, using(sparse_poly::proofs::Sorted::residues_of))]
fn push_jacobian(
    alloc: Global,
    names: &Names,
    gens: &mut Vec<Poly>,
    f: &Poly,
) -> Result<(), AllocError>
    requires sound { IsSound names.now }
    requires value { IsValue names.now.field (length names.now.letters) f.now }
    requires valid { All (IsGenerator names.now.field (length names.now.letters) names.now.d) gens.old.items }
    ensures gens { OnOk result (gens.new.items ≡ gens.old.items ++ jacobian_gens (values_of names.now) f.now.terms) }
    ensures valid { OnOk result (All (IsGenerator names.now.field (length names.now.letters) names.now.d) gens.new.items) }
{
    for i in 0..names.letters.len() {
        let derivative = f.derivative(alloc, &names.field, i as u32)?;
        gens.push(generator(alloc, names, &derivative)?)?;
    }
    Ok(())
}

/// Puts the generators that a member stands for at the end of the generators before it.
#[tactic(auto, unfolding(script_grammar::specs::Statements::member_at))]
fn member<'a>(
    alloc: Global,
    names: &Names,
    gens: &mut Vec<Poly>,
    here: Place<'a>,
) -> Result<Place<'a>, Stop>
    requires sound { IsSound names.now }
    requires few { length gens.old.items ≤ max_generators }
    requires valid { All (IsGenerator names.now.field (length names.now.letters) names.now.d) gens.old.items }
    ensures gives { Gives (λ p. (gens.new.items, place_of p)) result
        (meant (λ m. gens.old.items ++ member_gens (values_of names.now) m) (member_at (declarations_of names.now) (length gens.old.items) (place_of here.entry))) }
    ensures few { IfOk result (λ p. length gens.new.items ≤ max_generators) }
    ensures valid { IfOk result (λ p. All (IsGenerator names.now.field (length names.now.letters) names.now.d) gens.new.items) }
    ensures shorter { IfOk result (λ p. p.left ≤ here.entry.left - 1) }
{
    if is_word(here, b"jacob") {
        let after = mark(behind(here), b'(', What::Open)?;
        let (f, after) = known(names.polys, after)?;
        if gens.len() + names.letters.len() > MAX_GENERATORS {
            return Err(Stop::Refused(refused(here, ReadKind::TooManyGenerators)));
        }
        let after = mark(after, b')', What::Close)?;
        push_jacobian(alloc, names, gens, &f.value)?;
        return Ok(after);
    }
    if gens.len() == MAX_GENERATORS {
        return Err(Stop::Refused(no_room(names, here)));
    }
    let (f, after) = expression(alloc, names, here)?;
    gens.push(generator(alloc, names, &f)?)?;
    Ok(after)
}

/// The members of an ideal up to the `;`, from the first one on.
pub fn members<'a>(
    alloc: Global,
    names: &Names,
    here: Place<'a>,
) -> Result<(Vec<Poly>, Place<'a>), Stop>
    requires sound { IsSound names.now }
    ensures gives { Gives (λ x. (x.0.items, place_of x.1)) result
        (meant (members_gens (values_of names.now)) (members_from (declarations_of names.now) (place_of here.entry))) }
    ensures valid { IfOk result (λ x. All (IsGenerator names.now.field (length names.now.letters) names.now.d) x.0.items) }
    ensures few { IfOk result (λ x. length x.0.items ≤ max_generators) }
    ensures shorter { IfOk result (λ x. x.1.left ≤ here.entry.left - 1) }
{
    let mut gens = Vec::new(alloc);
    let mut after = member(alloc, names, &mut gens, here)?;
    while is_mark(after, b',') {
        after = member(alloc, names, &mut gens, behind(after))?;
    }
    let after = mark(after, b';', What::Operator)?;
    Ok((gens, after))
}
