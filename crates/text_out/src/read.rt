//! Reading monomials from their texts: what stands there is read, and compared with what is printed.

ghost use Rattle.std.specs.Prelude.{◌≡◌, ℕ, ◌≤◌, ◌<◌, List, length, All, IfSome, IfNone};
ghost use Rattle.prime_field.specs.Decimal.{value_of};
ghost use Rattle.local_order.specs.Limits.{max_exponent};
ghost use Rattle.local_order.specs.Mono.{IsWithinLimits};
ghost use Rattle.sparse_poly.specs.Letters.{AreLetters};
ghost use Rattle.script_grammar.specs.Tokens.{is_digit};
ghost use Rattle.script_grammar.specs.Words.{digits_front};
ghost use Rattle.text_out.specs.Texts.{mono_text as text_of_mono};
ghost use Rattle.text_out.specs.Reads.{exponent_behind as exponent_behind_letter, exponent_in as exponent_of, exponents_in};

use crate::strip::is_mono_text;
use local_order::{MAX_EXPONENT, MAX_VARIABLES, Mono};
use sparse_poly::Letters;

/// Whether a byte is a digit.
pub(crate) fn is_digit_byte(b: u8) -> bool
    ensures { result ≡ is_digit b }
{
    48 <= b && b <= 57
}

/// The number in front, where it is at most `limit`.
pub(crate) fn number_front(bytes: &[u8], limit: u32) -> Option<u32>
    ensures some { IfSome result (λ n. (n ≡ value_of (digits_front bytes.now)) × (n ≤ limit)) }
    ensures none { IfNone result (limit < value_of (digits_front bytes.now)) }
{
    let mut value = 0u64;
    for b in bytes {
        if !is_digit_byte(*b) {
            return Some(value as u32);
        }
        value = 10 * value + u64::from(*b - b'0');
        if value > u64::from(limit) {
            return None;
        }
    }
    Some(value as u32)
}

/// The exponent behind a letter, where it is at most [`MAX_EXPONENT`].
fn exponent_behind(text: &[u8]) -> Option<u16>
    ensures some { IfSome result (λ e. e ≡ exponent_behind_letter text.now) }
    ensures none { IfNone result (max_exponent < exponent_behind_letter text.now) }
{
    if text.is_empty() || text[0] != b'^' {
        return Some(1);
    }
    let e = number_front(&text[1..], u32::from(MAX_EXPONENT))?;
    Some(e as u16)
}

/// The exponent of a letter, where it is at most [`MAX_EXPONENT`].
fn exponent_in(letter: u8, text: &[u8]) -> Option<u16>
    ensures some { IfSome result (λ e. e ≡ exponent_of letter text.now) }
    ensures none { IfNone result (max_exponent < exponent_of letter text.now) }
{
    for i in 0..text.len() {
        if text[i] == letter {
            return exponent_behind(&text[i + 1..]);
        }
    }
    Some(0)
}

/// The monomial of the exponents in a text, where none is above [`MAX_EXPONENT`].
pub(crate) fn mono_in(letters: &Letters, text: &[u8]) -> Option<Mono>
    ensures some { IfSome result (λ m. m ≡ exponents_in letters.now text.now) }
    ensures limits { IfSome result (λ m. IsWithinLimits m) }
    ensures none { IfNone result (All (λ e. e ≤ max_exponent) (exponents_in letters.now text.now) → ⊥) }
    ensures letters { AreLetters letters.now }
{
    let mut exps = [0u16; MAX_VARIABLES];
    for i in 0..letters.len() {
        exps[i] = exponent_in(letters.get(i), text)?;
    }
    Mono::new(&exps[..letters.len()])
}

/// The monomial that has this text. It takes no memory.
pub fn read_mono(letters: &Letters, text: &[u8]) -> Option<Mono>
    ensures some { IfSome result (λ m. (length m ≡ length letters.now) × (text_of_mono letters.now m ≡ text.now)) }
    ensures limits { IfSome result (λ m. IsWithinLimits m) }
    ensures none { IfNone result ((m : List ℕ) → IsWithinLimits m → length m ≡ length letters.now → text_of_mono letters.now m ≡ text.now → ⊥) }
{
    let m = mono_in(letters, text)?;
    if is_mono_text(letters, &m, text) {
        Some(m)
    } else {
        None
    }
}
