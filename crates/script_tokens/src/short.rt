//! Short monomials: `2xy3` is 2 * x * y^3.

ghost use Rattle.std.specs.Prelude.{◌≡◌, ◌+◌, ◌≤◌, ◌||◌, false, length, min, IfSome};
ghost use Rattle.local_order.specs.Limits.{max_exponent};
ghost use Rattle.std.specs.List.{list_all};
ghost use Rattle.prime_field.specs.Decimal.{AreDigits};
ghost use Rattle.script_grammar.specs.Tokens.{is_digit};
ghost use Rattle.script_grammar.specs.Words.{digits_front, digits_behind, has_letter, is_groups, is_short as is_short_word, exponent_of, exponents, has_large as has_large_exponent, word_degree};
ghost use Rattle.script_grammar.specs.Meaning.{letter_exponent as letter_exponent_in};
ghost use Rattle.script_tokens.specs.Reads.{at_most};

use crate::words::{MAX_EXPONENT, is_digit_byte, is_letter_byte, small};

/// How many digits stand in front of the word.
fn digit_count(word: &[u8]) -> usize
    ensures count { result ≡ length (digits_front word.now) }
    ensures within { result ≤ length word.now }
{
    let mut n = 0;
    while n < word.len() && is_digit_byte(word[n]) {
        n += 1;
    }
    n
}

/// The digits in front of a word, and what is behind them.
#[tactic(auto, using(crate::proofs::Fronts::front_taken, crate::proofs::Fronts::front_dropped, crate::proofs::Fronts::front_of_digits))]
fn split(word: &[u8]) -> (&[u8], &[u8])
    ensures front { result.0.now ≡ digits_front word.now }
    ensures behind { result.1.now ≡ digits_behind word.now }
    ensures digits { AreDigits result.0.now }
{
    word.split_at(digit_count(word))
}

/// The digits in front of a word, which are its coefficient.
pub fn coefficient(word: &[u8]) -> &[u8]
    ensures front { result.now ≡ digits_front word.now }
    ensures digits { AreDigits result.now }
{
    split(word).0
}

/// Whether the byte is one of the letters.
fn is_variable(letters: &[u8], b: u8) -> bool
    ensures { result ≡ has_letter letters.now b }
{
    letters.iter().any(|l| *l == b)
}

/// Whether each byte is a digit or one of the letters.
fn has_no_other(letters: &[u8], word: &[u8]) -> bool
    ensures { result ≡ list_all (λ c. is_digit c || has_letter letters.now c) word.now }
{
    word.iter()
        .all(|b| is_digit_byte(*b) || is_variable(letters, *b))
}

/// Whether the word is groups of a variable letter and digits, at least one.
fn is_grouped(letters: &[u8], word: &[u8]) -> bool
    ensures { result ≡ is_groups letters.now word.now }
{
    match word {
        [] => false,
        [_, ..] => has_no_other(letters, word),
    }
}

/// Whether the word is a short monomial in these letters.
pub fn is_short(letters: &[u8], word: &[u8]) -> bool
    ensures { result ≡ is_short_word letters.now word.now }
{
    is_grouped(letters, split(word).1)
}

/// The exponent that the digits in front of these bytes are, 1 where there are none, where it is at most 1,000.
fn exponent_in_front(bytes: &[u8]) -> Option<u32>
    ensures { result ≡ at_most max_exponent (exponent_of (digits_front bytes.now)) }
{
    match coefficient(bytes) {
        [] => Some(1),
        digits => small(digits),
    }
}

/// Whether an exponent is above 1,000.
pub fn has_large(word: &[u8]) -> bool
    ensures { result ≡ has_large_exponent word.now }
{
    let mut rest = word;
    loop {
        let [b, after @ ..] = rest else {
            return false;
        };
        if is_letter_byte(*b) && exponent_in_front(after).is_none() {
            return true;
        }
        rest = after;
    }
}

/// The sum of the exponents, or one more than the limit where it is above that. No exponent is above 1,000.
pub fn degree_within(limit: u32, word: &[u8]) -> u32
    requires small { has_large_exponent word.now ≡ false }
    requires limit { limit ≤ max_exponent }
    ensures { result ≡ min (word_degree word.now) (limit + 1) }
{
    let mut degree: u32 = 0;
    let mut rest = word;
    while let [b, after @ ..] = rest {
        if is_letter_byte(*b) {
            degree = capped(limit, degree, exponent_in_front(after));
        }
        rest = after;
    }
    degree
}

/// The sum of a degree and an exponent, or one more than the limit where it is above that.
fn capped(limit: u32, degree: u32, exponent: Option<u32>) -> u32
    requires degree { degree ≤ 1001 }
    requires limit { limit ≤ max_exponent }
    requires exponent { IfSome exponent (λ e. e ≤ max_exponent) }
    ensures { IfSome exponent (λ e. result ≡ min (degree + e) (limit + 1)) }
{
    match exponent {
        Some(e) => (degree + e).min(limit + 1),
        None => limit + 1,
    }
}

/// The sum of the exponents of one letter, where it is at most 1,000. No exponent is above 1,000.
pub fn letter_exponent(word: &[u8], letter: u8) -> Option<u16>
    requires small { has_large_exponent word.now ≡ false }
    ensures { result ≡ at_most max_exponent (letter_exponent_in (exponents word.now) letter) }
{
    let mut sum: u32 = 0;
    let mut rest = word;
    loop {
        let [b, after @ ..] = rest else {
            return Some(sum as u16);
        };
        if *b == letter && is_letter_byte(*b) {
            sum = capped(MAX_EXPONENT, sum, exponent_in_front(after));
            if sum > MAX_EXPONENT {
                return None;
            }
        }
        rest = after;
    }
}
