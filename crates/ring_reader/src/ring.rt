//! The ring statement.

ghost use Rattle.std.specs.Prelude.{◌≡◌, ◌<◌, ◌≤◌, ◌==◌, [], false, true, length, IfOk, IfSome, IfNone};
ghost use Rattle.local_order.specs.Limits.{max_variables};
ghost use Rattle.std.specs.List.{list_any};
ghost use Rattle.prime_field.specs.Decimal.{value_of};
ghost use Rattle.prime_field.specs.Prime.{InTable, table};
ghost use Rattle.sparse_poly.specs.Letters.{AreLetters};
ghost use Rattle.script_tokens.specs.PlaceView.{place_of};
ghost use Rattle.script_tokens.specs.Reads.{ReadsAs, meant_number};
ghost use Rattle.script_grammar.specs.Tokens.{is_letter};
ghost use Rattle.script_grammar.specs.Words.{has_letter};
ghost use Rattle.script_grammar.specs.Statements.{ring_name_at, prime_at, variable_at, listed_at, letters_at, letters_of, ring_at};
ghost use Rattle.expression_reader.specs.Gives.{Gives, meant};
ghost use Rattle.ring_reader.specs.RingView.{ring_of, ring_value};

use expression_reader::Stop;
use local_order::MAX_VARIABLES;
use prime_field::Field;
use script_grammar::{ReadKind, Refusal, What};
use script_tokens::{
    Place, Token, behind, is_keyword, is_letter_byte, is_mark, mark, name, number_within, numeral,
    refused, same, word,
};
use sparse_poly::Letters;
use std::alloc::Global;

/// The greatest characteristic.
const MAX_PRIME: u32 = 2_147_483_647;

/// A ring: its name, its field and the letters of its variables.
#[derive(Clone, Copy)]
pub(crate) struct Ring<'a> {
    pub(crate) name: &'a [u8],
    pub(crate) field: Field,
    pub(crate) letters: Letters,
}

/// The ring's name. Nothing else is declared yet.
#[tactic(auto, unfolding(script_grammar::specs::Statements::ring_name_at))]
fn ring_name<'a>(here: Place<'a>) -> Result<(&'a [u8], Place<'a>), Refusal>
    ensures reads { ReadsAs (λ x. (x.0.now, place_of x.1)) result (ring_name_at (place_of here.entry)) }
    ensures shorter { IfOk result (λ x. x.1.left < here.entry.left) }
{
    let Some(word) = name(here) else {
        return Err(refused(here, ReadKind::Expected(What::Name)));
    };
    if is_keyword(word) {
        return Err(refused(here, ReadKind::NameClash));
    }
    Ok((word, behind(here)))
}

/// The field of the characteristic that a numeral is, where it is in the table of characteristics.
fn numeral_field(digits: &[u8]) -> Option<Field>
    ensures some { IfSome result (λ f. f ≡ value_of digits.now) }
    ensures there { IfSome result (λ f. list_any (λ q. q == value_of digits.now) table ≡ true) }
    ensures offered { IfSome result (λ f. InTable f) }
    ensures none { IfNone result (list_any (λ q. q == value_of digits.now) table ≡ false) }
{
    match number_within(MAX_PRIME, digits) {
        Some(p) => table_field(p),
        None => None,
    }
}

/// The field of a number, where it is in the table of characteristics.
fn table_field(p: u32) -> Option<Field>
    ensures value { IfSome result (λ f. f ≡ p) }
    ensures there { IfSome result (λ f. list_any (λ q. q == p) table ≡ true) }
    ensures offered { IfSome result (λ f. InTable f) }
    ensures none { IfNone result (list_any (λ q. q == p) table ≡ false) }
{
    Field::of(p)
}

/// The characteristic.
#[tactic(auto, unfolding(script_grammar::specs::Statements::prime_at))]
fn characteristic(here: Place<'_>) -> Result<(Field, Place<'_>), Refusal>
    ensures reads { ReadsAs (λ x. (x.0, place_of x.1)) result (meant_number (prime_at (place_of here.entry))) }
    ensures offered { IfOk result (λ x. InTable x.0) }
    ensures shorter { IfOk result (λ x. x.1.left < here.entry.left) }
{
    let (digits, after) = numeral(here)?;
    match numeral_field(digits) {
        Some(field) => Ok((field, after)),
        None => Err(refused(here, ReadKind::NotAPrime)),
    }
}

/// One more letter of a variable.
#[tactic(auto, unfolding(script_grammar::specs::Statements::variable_at))]
fn variable<'a>(ring: &[u8], letters: &[u8], here: Place<'a>) -> Result<(u8, Place<'a>), Refusal>
    ensures reads { ReadsAs (λ x. (x.0, place_of x.1)) result (variable_at ring.now letters.now (place_of here.entry)) }
    ensures letter { IfOk result (λ x. is_letter x.0 ≡ true) }
    ensures fresh { IfOk result (λ x. has_letter letters.now x.0 ≡ false) }
    ensures few { IfOk result (λ x. (length letters.now == max_variables) ≡ false) }
    ensures shorter { IfOk result (λ x. x.1.left < here.entry.left) }
{
    let Token::Word(word) = here.token else {
        return Err(refused(here, ReadKind::Expected(What::Variable)));
    };
    let [letter] = word else {
        return Err(refused(here, ReadKind::Expected(What::Variable)));
    };
    if !is_letter_byte(*letter) {
        return Err(refused(here, ReadKind::Expected(What::Variable)));
    }
    if letters.len() == MAX_VARIABLES {
        return Err(refused(here, ReadKind::TooManyVariables));
    }
    if letters.contains(letter) || same(ring, word) {
        return Err(refused(here, ReadKind::NameClash));
    }
    Ok((*letter, behind(here)))
}

/// Letters up to the `)`, from behind the `(` on.
fn listed<'a>(alloc: Global, ring: &[u8], here: Place<'a>) -> Result<(Vec<u8>, Place<'a>), Stop>
    ensures gives { Gives (λ x. (x.0.items, place_of x.1)) result (listed_at ring.now (place_of here.entry)) }
    ensures letters { IfOk result (λ x. AreLetters x.0.items) }
    ensures shorter { IfOk result (λ x. x.1.left < here.entry.left) }
{
    let (first, mut after) = variable(ring, &[], here)?;
    let mut letters = Vec::with_capacity(alloc, MAX_VARIABLES)?;
    letters.push(first)?;
    loop {
        if is_mark(after, b',') {
            let (letter, next) = variable(ring, &letters, behind(after))?;
            letters.push(letter)?;
            after = next;
        } else if is_mark(after, b')') {
            return Ok((letters, behind(after)));
        } else {
            return Err(Stop::Refused(refused(after, ReadKind::Expected(What::Comma))));
        }
    }
}

/// The letters of these bytes.
fn letters_of_bytes(bytes: &[u8]) -> Letters
    requires { AreLetters bytes.now }
    ensures { result ≡ bytes.now }
{
    let Some(letters) = Letters::new(bytes) else {
        unreachable!()
    };
    letters
}

/// The letters of the variables.
#[tactic(auto, unfolding(script_grammar::specs::Statements::letters_at))]
fn letters<'a>(alloc: Global, ring: &[u8], here: Place<'a>) -> Result<(Letters, Place<'a>), Stop>
    ensures gives { Gives (λ x. (x.0, place_of x.1)) result (meant letters_of (letters_at ring.now (place_of here.entry))) }
    ensures letters { IfOk result (λ x. AreLetters x.0) }
    ensures shorter { IfOk result (λ x. x.1.left < here.entry.left) }
{
    if is_mark(here, b'(') {
        let (letters, after) = listed(alloc, ring, behind(here))?;
        return Ok((letters_of_bytes(&letters), after));
    }
    let (letter, after) = variable(ring, &[], here)?;
    Ok((letters_of_bytes(&[letter]), after))
}

/// A ring statement, from behind the word `ring` on.
#[tactic(auto, unfolding(script_grammar::specs::Statements::ring_at))]
pub(crate) fn ring_statement<'a>(
    alloc: Global,
    here: Place<'a>,
) -> Result<(Ring<'a>, Place<'a>), Stop>
    ensures gives { Gives (λ x. (ring_of x.0, place_of x.1)) result (meant ring_value (ring_at (place_of here.entry))) }
    ensures offered { IfOk result (λ x. InTable x.0.field) }
    ensures letters { IfOk result (λ x. AreLetters x.0.letters) }
    ensures shorter { IfOk result (λ x. x.1.left < here.entry.left) }
{
    let (name, after) = ring_name(here)?;
    let after = mark(after, b'=', What::Equals)?;
    let (field, after) = match characteristic(after) {
        Ok(found) => found,
        Err(refusal) => return Err(Stop::Refused(refusal)),
    };
    let after = mark(after, b',', What::Comma)?;
    let (letters, after) = match letters(alloc, name, after) {
        Ok(found) => found,
        Err(stop) => return Err(stop),
    };
    let after = mark(after, b',', What::Comma)?;
    let after = word(after, b"ds", What::Order)?;
    let after = mark(after, b';', What::Semicolon)?;
    let ring = Ring {
        name,
        field,
        letters,
    };
    Ok((ring, after))
}
