//! Comparing a text with that of a monomial, without making it.

ghost use Rattle.std.specs.Prelude.{◌≡◌, ◌&&◌, [], ◌∷◌, ◌==◌, length, decimal, codes, if◌then◌else◌};
ghost use Rattle.std.specs.Option.{option_map};
ghost use Rattle.script_grammar.specs.Words.{is_same};
ghost use Rattle.text_out.specs.Texts.{power_text, mono_text as text_of_mono};
ghost use Rattle.text_out.specs.Strips.{stripped, piece_text};

use itoa::Buffer;
use local_order::Mono;
use sparse_poly::Letters;

/// The bytes behind a piece, where they begin with it.
fn strip<'a>(left: &'a [u8], piece: &[u8]) -> Option<&'a [u8]>
    ensures { option_map (λ s. s.now) result ≡ stripped piece.now left.now }
{
    left.strip_prefix(piece)
}

/// The bytes behind one byte.
fn strip_byte(left: &[u8], b: u8) -> Option<&[u8]>
    ensures { option_map (λ s. s.now) result ≡ stripped (b ∷ []) left.now }
{
    if left.is_empty() || left[0] != b {
        return None;
    }
    Some(&left[1..])
}

/// The bytes behind an exponent above 1.
fn strip_exponent(left: &[u8], e: u16) -> Option<&[u8]>
    ensures { option_map (λ s. s.now) result ≡ stripped (94 ∷ decimal e) left.now }
{
    let left = strip_byte(left, b'^')?;
    let mut buffer = Buffer::new();
    strip(left, buffer.format(u64::from(e)).as_bytes())
}

/// The bytes behind a letter with its exponent.
fn strip_power(left: &[u8], letter: u8, e: u16) -> Option<&[u8]>
    ensures { option_map (λ s. s.now) result ≡ stripped (power_text letter e) left.now }
{
    let left = strip_byte(left, letter)?;
    if e == 1 {
        return Some(left);
    }
    strip_exponent(left, e)
}

/// The bytes behind what a variable adds.
fn strip_variable(left: &[u8], is_first: bool, letter: u8, e: u16) -> Option<&[u8]>
    ensures { option_map (λ s. s.now) result ≡ stripped (piece_text is_first letter e) left.now }
{
    if e == 0 {
        return Some(left);
    }
    if is_first {
        return strip_power(left, letter, e);
    }
    let left = strip_byte(left, b'*')?;
    strip_power(left, letter, e)
}

/// Whether nothing stands before the variable behind one with that exponent.
fn is_still_first(is_first: bool, e: u16) -> bool
    ensures { result ≡ (is_first && (e == 0)) }
{
    is_first && e == 0
}

/// Whether the text is that of the monomial. It takes no memory.
pub(crate) fn is_mono_text(letters: &Letters, m: &Mono, text: &[u8]) -> bool
    requires { length letters.now ≡ length m.now }
    ensures { result ≡ is_same (text_of_mono letters.now m.now) text.now }
{
    if m.degree() == 0 {
        return text == b"1".as_slice();
    }
    let mut left = text;
    let mut is_first = true;
    for i in 0..letters.len() {
        let e = m.exp(i as u32);
        let Some(rest) = strip_variable(left, is_first, letters.get(i), e) else {
            return false;
        };
        left = rest;
        is_first = is_still_first(is_first, e);
    }
    left.is_empty()
}
