//! Single tokens.

ghost use Rattle.std.specs.Prelude.{◌≡◌, ℕ, List, true, ◌<◌, ◌≤◌, ◌-◌, ◌&&◌, false, IfOk, IfSome, IfNone};
ghost use Rattle.std.specs.Str.{IsAscii};
ghost use Rattle.prime_field.specs.Decimal.{AreDigits, value_of};
ghost use Rattle.script_grammar.specs.Tokens.{next as token_at, word as word_token};
ghost use Rattle.script_grammar.specs.Words.{is_the_mark, is_the_word, is_word as is_word_token, is_named as is_named_word, word_of};
ghost use Rattle.script_grammar.specs.Steps.{kind_at, mark_at, word_at, numeral_at, exponent_at};
ghost use Rattle.script_tokens.specs.TokenView.{token_of};
ghost use Rattle.script_tokens.specs.PlaceView.{place_of};
ghost use Rattle.script_tokens.specs.Reads.{ReadsAs, meant_number};

use crate::lexer::next_token;
use crate::token::{Place, Token};
use crate::words::{is_named, is_numeral, same, small};
use script_grammar::{ReadKind, Refusal, What};

/// The refusal of a token: a bad byte and the end are refused as such.
pub fn refused(here: Place, kind: ReadKind) -> Refusal
    ensures { result ≡ record { left = here.entry.left; kind = kind_at (token_of here.entry.token) kind } }
{
    let kind = match here.token {
        Token::Bad => ReadKind::BadByte,
        Token::End | Token::Cut => ReadKind::EndOfInput,
        _ => kind,
    };
    Refusal {
        left: here.left,
        kind,
    }
}

/// Whether the token is this mark.
pub fn is_mark(here: Place, mark: u8) -> bool
    ensures which { result ≡ is_the_mark mark (token_of here.entry.token) }
    ensures some { result ≡ true → 0 < here.entry.left }
{
    match here.token {
        Token::Mark(m) => m == mark,
        _ => false,
    }
}

/// Whether the token is this word.
pub fn is_word(here: Place, word: &[u8]) -> bool
    ensures which { result ≡ is_the_word word.now (token_of here.entry.token) }
    ensures some { result ≡ true → 0 < here.entry.left }
{
    match here.token {
        Token::Word(w) => same(word, w),
        _ => false,
    }
}

/// The word that the token is, where it begins with a letter.
pub fn name<'a>(here: Place<'a>) -> Option<&'a [u8]>
    ensures some { IfSome result (λ w. token_of here.entry.token ≡ word_token w.now) }
    ensures named { IfSome result (λ w. is_named_word w.now ≡ true) }
    ensures none { IfNone result ((is_word_token (token_of here.entry.token) && is_named_word (word_of (token_of here.entry.token))) ≡ false) }
    ensures ascii { IfSome result (λ w. IsAscii w.now) }
    ensures left { IfSome result (λ w. 0 < here.entry.left) }
{
    match here.token {
        Token::Word(w) if is_named(w) => Some(w),
        _ => None,
    }
}

/// The place behind the token.
pub fn behind(here: Place<'_>) -> Place<'_>
    ensures next { place_of result ≡ token_at here.entry.rest.now }
    ensures shorter { result.left ≤ here.entry.left - 1 }
{
    next_token(here.rest)
}

/// The place behind just this mark.
#[tactic(auto, unfolding(script_grammar::specs::Steps::mark_at))]
pub fn mark(here: Place<'_>, mark: u8, what: What) -> Result<Place<'_>, Refusal>
    ensures reads { ReadsAs place_of result (mark_at mark what (place_of here.entry)) }
    ensures shorter { IfOk result (λ n. n.left < here.entry.left) }
{
    if is_mark(here, mark) {
        Ok(behind(here))
    } else {
        Err(refused(here, ReadKind::Expected(what)))
    }
}

/// The place behind just this word.
#[tactic(auto, unfolding(script_grammar::specs::Steps::word_at))]
pub fn word<'a>(here: Place<'a>, word: &[u8], what: What) -> Result<Place<'a>, Refusal>
    ensures reads { ReadsAs place_of result (word_at word.now what (place_of here.entry)) }
    ensures shorter { IfOk result (λ n. n.left < here.entry.left) }
{
    if is_word(here, word) {
        Ok(behind(here))
    } else {
        Err(refused(here, ReadKind::Expected(what)))
    }
}

/// The digits of a numeral.
#[tactic(auto, unfolding(script_grammar::specs::Steps::numeral_at))]
pub fn numeral(here: Place<'_>) -> Result<(&[u8], Place<'_>), Refusal>
    ensures reads { ReadsAs (λ x. (x.0.now, place_of x.1)) result (numeral_at (place_of here.entry)) }
    ensures digits { IfOk result (λ x. AreDigits x.0.now) }
    ensures shorter { IfOk result (λ x. x.1.left < here.entry.left) }
{
    match here.token {
        Token::Word(word) if is_numeral(word) => Ok((word, behind(here))),
        _ => Err(refused(here, ReadKind::Expected(What::Numeral))),
    }
}

/// The numeral behind `^`.
#[tactic(auto, unfolding(script_grammar::specs::Steps::exponent_at))]
pub fn exponent(here: Place<'_>) -> Result<(u32, Place<'_>), Refusal>
    ensures reads { ReadsAs (λ x. (x.0, place_of x.1)) result (meant_number (exponent_at (place_of here.entry))) }
    ensures shorter { IfOk result (λ x. x.1.left < here.entry.left) }
{
    let (digits, after) = numeral(here)?;
    match small(digits) {
        Some(n) => Ok((n, after)),
        None => Err(refused(here, ReadKind::ExponentTooLarge)),
    }
}
