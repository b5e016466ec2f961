//! Expressions, read to their values.

ghost use Rattle.std.specs.Prelude.{◌≡◌, ℕ, List, ◌<◌, ◌≤◌, ◌-◌, ◌+◌, ◌*◌, ◌%◌, length, IfOk};
ghost use Rattle.prime_field.specs.Decimal.{AreDigits};
ghost use Rattle.script_tokens.specs.PlaceView.{place_of};
ghost use Rattle.script_grammar.specs.Expressions.{fraction_at, word_operand_at, operand_at, power_at, term_at, first_at, sum_at, inner_at, expression_at};
ghost use Rattle.script_grammar.specs.Meaning.{power_value, term_value, sum_value};
ghost use Rattle.expression_reader.specs.Gives.{meant, operand_meaning};
ghost use Rattle.expression_reader.specs.NamesView.{declarations_of, values_of};
ghost use Rattle.expression_reader.specs.ReadsValue.{ReadsValue};
ghost use Rattle.expression_reader.specs.Sound.{IsSound};

use crate::lookup::find;
use crate::names::Names;
use crate::stop::Stop;
use crate::values::{constant, opposite, quotient, short_value};
use script_grammar::{ReadKind, What};
use script_tokens::{
    Place, Token, behind, exponent, has_large, is_keyword, is_mark, is_numeral, is_short, mark,
    numeral, refused,
};
use sparse_poly::Poly;
use std::alloc::Global;

/// How many parentheses may be open at once.
const MAX_DEPTH: u32 = 32;

/// A numeral, and what may stand over it.
#[tactic(auto, unfolding(script_grammar::specs::Expressions::fraction_at, script_grammar::specs::Expressions::below_at, script_grammar::specs::Meaning::operand_value, script_grammar::specs::Expressions::takes_exponent))]
fn fraction<'a>(
    alloc: Global,
    names: &Names,
    digits: &[u8],
    here: Place<'a>,
) -> Result<((Poly, bool), Place<'a>), Stop>
    requires sound { IsSound names.now }
    requires digits { AreDigits digits.now }
    ensures { ReadsValue names.now here.entry.left (λ o. (o.0.terms, o.1)) (λ o. o.0) (meant (operand_meaning (declarations_of names.now) (values_of names.now)) (fraction_at (declarations_of names.now) digits.now (place_of here.entry))) result }
{
    let field = &names.field;
    if !is_mark(here, b'/') {
        let residue = field.from_decimal(digits);
        return Ok(((constant(alloc, names, residue)?, true), here));
    }
    let place = behind(here);
    let (below, after) = numeral(place)?;
    let below = field.from_decimal(below);
    if below == 0 {
        return Err(Stop::Refused(refused(place, ReadKind::ZeroDivisor)));
    }
    let residue = quotient(field, digits, below);
    Ok(((constant(alloc, names, residue)?, false), after))
}

/// A word as an operand.
#[tactic(auto, unfolding(script_grammar::specs::Expressions::word_operand_at, script_grammar::specs::Meaning::operand_value, script_grammar::specs::Expressions::takes_exponent))]
fn word_operand<'a>(
    alloc: Global,
    names: &Names,
    here: Place<'a>,
    word: &[u8],
) -> Result<((Poly, bool), Place<'a>), Stop>
    requires sound { IsSound names.now }
    ensures { ReadsValue names.now (here.entry.left - 1) (λ o. (o.0.terms, o.1)) (λ o. o.0) (meant (operand_meaning (declarations_of names.now) (values_of names.now)) (word_operand_at (declarations_of names.now) word.now (place_of here.entry))) result }
{
    if is_keyword(word) {
        return Err(Stop::Refused(refused(here, ReadKind::UnknownName)));
    }
    if is_numeral(word) {
        return fraction(alloc, names, word, behind(here));
    }
    if let Some(f) = find(names.polys, word) {
        return Ok(((f.value.copy(alloc)?, true), behind(here)));
    }
    if !is_short(names.letters.bytes(), word) {
        return Err(Stop::Refused(refused(here, ReadKind::UnknownName)));
    }
    if has_large(word) {
        return Err(Stop::Refused(refused(here, ReadKind::ExponentTooLarge)));
    }
    Ok((
        (short_value(alloc, names, word)?, word.len() == 1),
        behind(here),
    ))
}

/// An operand: a word, or a sum in parentheses, of which `deep` more may be open.
#[cycle(expression)]
#[tactic(auto, unfolding(script_grammar::specs::Expressions::operand_at, script_grammar::specs::Meaning::operand_value, script_grammar::specs::Expressions::takes_exponent))]
fn operand<'a>(
    alloc: Global,
    names: &Names,
    deep: u32,
    here: Place<'a>,
) -> Result<((Poly, bool), Place<'a>), Stop>
    requires sound { IsSound names.now }
    ensures { let n = declarations_of names.now in ReadsValue names.now (here.entry.left - 1) (λ o. (o.0.terms, o.1)) (λ o. o.0) (meant (operand_meaning n (values_of names.now)) (operand_at (inner_at deep n) n (place_of here.entry))) result }
{
    match here.token {
        Token::Word(word) => word_operand(alloc, names, here, word),
        Token::Mark(b'(') => {
            let (value, after) = inner(alloc, names, deep, here)?;
            Ok(((value, true), after))
        }
        _ => Err(Stop::Refused(refused(here, ReadKind::Expected(What::Operand)))),
    }
}

/// A sum in parentheses, from its `(` on.
#[cycle(expression)]
#[tactic(auto, unfolding(script_grammar::specs::Expressions::inner_at))]
fn inner<'a>(
    alloc: Global,
    names: &Names,
    deep: u32,
    here: Place<'a>,
) -> Result<(Poly, Place<'a>), Stop>
    requires sound { IsSound names.now }
    ensures { let n = declarations_of names.now in ReadsValue names.now (here.entry.left - 1) (λ f. f.terms) (λ f. f) (meant (sum_value (values_of names.now)) (inner_at deep n (place_of here.entry))) result }
{
    if deep == 0 {
        return Err(Stop::Refused(refused(here, ReadKind::TooDeep)));
    }
    let (value, after) = sum(alloc, names, deep - 1, behind(here))?;
    let after = mark(after, b')', What::Operator)?;
    Ok((value, after))
}

/// An operand, and its exponent.
#[cycle(expression)]
#[tactic(auto, using(sparse_poly::proofs::Sorted::residues_of), unfolding(script_grammar::specs::Expressions::power_at, script_grammar::specs::Meaning::power_value))]
fn power<'a>(
    alloc: Global,
    names: &Names,
    deep: u32,
    here: Place<'a>,
) -> Result<(Poly, Place<'a>), Stop>
    requires sound { IsSound names.now }
    ensures { let n = declarations_of names.now in ReadsValue names.now (here.entry.left - 1) (λ f. f.terms) (λ f. f) (meant (power_value (values_of names.now)) (power_at (inner_at deep n) n (place_of here.entry))) result }
{
    let ((value, takes), after) = operand(alloc, names, deep, here)?;
    if takes && is_mark(after, b'^') {
        let (n, after) = exponent(behind(after))?;
        let power = value.pow_cut(alloc, &names.field, n, names.d + 1)?;
        return Ok((power, after));
    }
    Ok((value, after))
}

/// Powers joined by `*`.
#[cycle(expression)]
#[tactic(auto, using(sparse_poly::proofs::Sorted::residues_of), unfolding(script_grammar::specs::Expressions::term_at, script_grammar::specs::Expressions::times_at, script_grammar::specs::Meaning::term_value))]
fn term<'a>(
    alloc: Global,
    names: &Names,
    deep: u32,
    here: Place<'a>,
) -> Result<(Poly, Place<'a>), Stop>
    requires sound { IsSound names.now }
    ensures { let n = declarations_of names.now in ReadsValue names.now (here.entry.left - 1) (λ f. f.terms) (λ f. f) (meant (term_value (values_of names.now)) (term_at (inner_at deep n) n (place_of here.entry))) result }
{
    let (mut value, mut after) = power(alloc, names, deep, here)?;
    while is_mark(after, b'*') {
        let (factor, next) = power(alloc, names, deep, behind(after))?;
        value = value.mul_cut(alloc, &names.field, &factor, names.d + 1)?;
        after = next;
    }
    Ok((value, after))
}

/// The first term, with its sign.
#[cycle(expression)]
#[tactic(auto, unfolding(script_grammar::specs::Expressions::first_at, script_grammar::specs::Meaning::sum_value))]
fn first<'a>(
    alloc: Global,
    names: &Names,
    deep: u32,
    here: Place<'a>,
) -> Result<(Poly, Place<'a>), Stop>
    requires sound { IsSound names.now }
    ensures { let n = declarations_of names.now in ReadsValue names.now (here.entry.left - 1) (λ f. f.terms) (λ f. f) (meant (sum_value (values_of names.now)) (first_at (inner_at deep n) n (place_of here.entry))) result }
{
    if is_mark(here, b'+') {
        return term(alloc, names, deep, behind(here));
    }
    if is_mark(here, b'-') {
        let (value, after) = term(alloc, names, deep, behind(here))?;
        return Ok((opposite(alloc, names, &value)?, after));
    }
    term(alloc, names, deep, here)
}

/// Terms joined by `+` or `-`.
#[cycle(expression)]
#[tactic(auto, using(sparse_poly::proofs::Sorted::residues_of), unfolding(script_grammar::specs::Expressions::sum_at, script_grammar::specs::Expressions::more_at, script_grammar::specs::Meaning::sum_value))]
fn sum<'a>(
    alloc: Global,
    names: &Names,
    deep: u32,
    here: Place<'a>,
) -> Result<(Poly, Place<'a>), Stop>
    requires sound { IsSound names.now }
    ensures { let n = declarations_of names.now in ReadsValue names.now (here.entry.left - 1) (λ f. f.terms) (λ f. f) (meant (sum_value (values_of names.now)) (sum_at (inner_at deep n) n (place_of here.entry))) result }
{
    let (mut value, mut after) = first(alloc, names, deep, here)?;
    loop {
        if is_mark(after, b'+') {
            let (other, next) = term(alloc, names, deep, behind(after))?;
            value = value.add(alloc, &names.field, &other)?;
            after = next;
        } else if is_mark(after, b'-') {
            let (other, next) = term(alloc, names, deep, behind(after))?;
            value = value.sub(alloc, &names.field, &other)?;
            after = next;
        } else {
            return Ok((value, after));
        }
    }
}

/// A whole expression. What ends it is left.
#[tactic(auto, unfolding(script_grammar::specs::Expressions::expression_at))]
pub fn expression<'a>(
    alloc: Global,
    names: &Names,
    here: Place<'a>,
) -> Result<(Poly, Place<'a>), Stop>
    requires sound { IsSound names.now }
    ensures { let n = declarations_of names.now in ReadsValue names.now (here.entry.left - 1) (λ f. f.terms) (λ f. f) (meant (sum_value (values_of names.now)) (expression_at n (place_of here.entry))) result }
{
    sum(alloc, names, MAX_DEPTH, here)
}
