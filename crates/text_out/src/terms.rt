//! Reading polynomials from their texts.

ghost use Rattle.std.specs.Prelude.{◌≡◌, ◌≤◌, ◌<◌, ◌^◌, ◌∷◌, Bool, length, map, IfSome, IfNone, IfOk};
ghost use Rattle.std.specs.Option.{option_map};
ghost use Rattle.text_out.specs.Reads.{pieces_from, size_in as size_of, term_in as term_of, terms_in as terms_of, residue};
ghost use Rattle.text_out.specs.Cuts.{len_to_sign, pieces_behind, IsTermModulo, AreTermsModulo, IsReadFrom, HasNoPoly};

use crate::poly::poly_text;
use crate::read::{is_digit_byte, mono_in, number_front};
use prime_field::Field;
use sparse_poly::{Letters, Poly, PolyTerm};
use std::alloc::{AllocError, Global};

/// The size in front of a piece, where it is below 2^32.
fn size_in(bytes: &[u8]) -> Option<u32>
    ensures some { IfSome result (λ n. n ≡ size_of bytes.now) }
    ensures none { IfNone result (2 ^ 32 ≤ size_of bytes.now) }
{
    if bytes.is_empty() || !is_digit_byte(bytes[0]) {
        return Some(1);
    }
    number_front(bytes, u32::MAX)
}

/// The residue of a sign and a size.
fn coefficient(p: u32, is_negative: bool, size: u32) -> u32
    ensures { result ≡ residue p is_negative size }
{
    if is_negative {
        p.saturating_sub(size)
    } else {
        size
    }
}

/// The term of a piece, where it may be a term of a polynomial.
fn term_in(p: u32, letters: &Letters, is_negative: bool, bytes: &[u8]) -> Option<PolyTerm>
    ensures some { IfSome result (λ t. t ≡ term_of p letters.now (record { negative = is_negative; bytes = bytes.now })) }
    ensures none { IfNone result (IsTermModulo p (term_of p letters.now (record { negative = is_negative; bytes = bytes.now })) → ⊥) }
{
    let mono = mono_in(letters, bytes)?;
    let size = size_in(bytes)?;
    Some(PolyTerm {
        mono,
        coef: coefficient(p, is_negative, size),
    })
}

/// How many bytes stand before the first sign.
fn len_before_sign(text: &[u8]) -> usize
    ensures len { result ≡ len_to_sign text.now }
    ensures within { result ≤ length text.now }
{
    let mut n = 0;
    while n < text.len() && text[n] != b'+' && text[n] != b'-' {
        n += 1;
    }
    n
}

/// The first piece, and the sign behind it with what follows, where there is one.
fn first_piece(text: &[u8]) -> (&[u8], Option<(bool, &[u8])>)
    ensures pieces { (negative : Bool) → pieces_from negative text.now
        ≡ record { negative = negative; bytes = result.0.now } ∷ pieces_behind (option_map (λ x. (x.0, x.1.now)) result.1) }
    ensures shorter { IfSome result.1 (λ x. length x.1.now < length text.now) }
{
    let n = len_before_sign(text);
    if n < text.len() {
        return (&text[..n], Some((text[n] == b'-', &text[n + 1..])));
    }
    (text, None)
}

/// The terms of the pieces of a text in which the sign of the first is given, where each may be one of a polynomial.
fn terms_from(
    alloc: Global,
    p: u32,
    letters: &Letters,
    negative: bool,
    text: &[u8],
) -> Result<Option<Vec<PolyTerm>>, AllocError>
    ensures some { IfOk result (λ o. IfSome o (λ ts. ts.items ≡ map (term_of p letters.now) (pieces_from negative text.now))) }
    ensures none { IfOk result (λ o. IfNone o (AreTermsModulo p (map (term_of p letters.now) (pieces_from negative text.now)) → ⊥)) }
{
    let mut terms = Vec::new(alloc);
    let mut is_negative = negative;
    let mut rest = text;
    loop {
        let (bytes, behind) = first_piece(rest);
        let Some(term) = term_in(p, letters, is_negative, bytes) else {
            return Ok(None);
        };
        terms.push(term)?;
        match behind {
            Some(next) => {
                is_negative = next.0;
                rest = next.1;
            }
            None => return Ok(Some(terms)),
        }
    }
}

/// The terms of a text, where each may be one of a polynomial.
fn terms_in(
    alloc: Global,
    p: u32,
    letters: &Letters,
    text: &[u8],
) -> Result<Option<Vec<PolyTerm>>, AllocError>
    ensures some { IfOk result (λ o. IfSome o (λ ts. ts.items ≡ terms_of p letters.now text.now)) }
    ensures none { IfOk result (λ o. IfNone o (AreTermsModulo p (terms_of p letters.now text.now) → ⊥)) }
{
    if text == b"0".as_slice() {
        return Ok(Some(Vec::new(alloc)));
    }
    if !text.is_empty() && text[0] == b'-' {
        return terms_from(alloc, p, letters, true, &text[1..]);
    }
    terms_from(alloc, p, letters, false, text)
}

/// The polynomial that has this text.
pub fn read_poly(
    alloc: Global,
    letters: &Letters,
    field: &Field,
    text: &[u8],
) -> Result<Option<Poly>, AllocError>
    // It is in the ring, its terms are those that stand there, and its text is this one.
    ensures some { IfOk result (λ o. IfSome o (λ f. IsReadFrom field.now letters.now text.now f)) }
    // Where there is none, no polynomial has this text.
    ensures none { IfOk result (λ o. IfNone o (HasNoPoly field.now letters.now text.now)) }
{
    let p = field.prime();
    let n = letters.len() as u32;
    let Some(terms) = terms_in(alloc, p, letters, text)? else {
        return Ok(None);
    };
    let poly = Poly::from_terms(alloc, field, n, terms)?;
    let printed = poly_text(alloc, letters, field, &poly)?;
    if printed.as_bytes() == text {
        Ok(Some(poly))
    } else {
        Ok(None)
    }
}
