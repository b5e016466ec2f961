//! The polynomials and monomials that words of a ring are.

ghost use Rattle.std.specs.Prelude.{◌≡◌, nat_le, ◌==◌, IfOk};
ghost use Rattle.cert_grammar.specs.Words.{poly_of_word, nonzero_of_word, is_low, mono_of_word, top_of_word};

use cert_grammar::Ring;
use local_order::Mono;
use sparse_poly::Poly;
use std::alloc::{AllocError, Global};
use text_out::{read_mono, read_poly};

/// Whether no term has a degree above `d`.
fn is_low_poly(f: &Poly, d: u32) -> bool
    ensures { result ≡ is_low d f.now.terms }
{
    f.terms().iter().all(|t| t.mono.degree() <= d)
}

/// The polynomial of the ring that the word is.
pub(crate) fn poly_in_word(
    alloc: Global,
    ring: &Ring,
    word: &[u8],
) -> Result<Option<Poly>, AllocError>
    ensures { IfOk result (λ o. o ≡ poly_of_word ring.now word.now) }
{
    let d = ring.d();
    let Some(f) = read_poly(alloc, ring.letters(), ring.field(), word)? else {
        return Ok(None);
    };
    if is_low_poly(&f, d) {
        Ok(Some(f))
    } else {
        Ok(None)
    }
}

/// The polynomial of the ring other than 0 that the word is.
pub(crate) fn nonzero_in_word(
    alloc: Global,
    ring: &Ring,
    word: &[u8],
) -> Result<Option<Poly>, AllocError>
    ensures { IfOk result (λ o. o ≡ nonzero_of_word ring.now word.now) }
{
    if word == b"0".as_slice() {
        return Ok(None);
    }
    poly_in_word(alloc, ring, word)
}

/// The monomial of the ring that the word is.
pub(crate) fn mono_in_word(ring: &Ring, word: &[u8]) -> Option<Mono>
    ensures { result ≡ mono_of_word ring.now word.now }
{
    let d = ring.d();
    let letters = ring.letters();
    let count = letters.len();
    if count == 0 {
        return None;
    }
    let Some(m) = read_mono(letters, word) else {
        return None;
    };
    if m.degree() <= d { Some(m) } else { None }
}

/// The monomial of just the ring's degree that the word is.
pub(crate) fn top_in_word(ring: &Ring, word: &[u8]) -> Option<Mono>
    ensures { result ≡ top_of_word ring.now word.now }
{
    let d = ring.d();
    let letters = ring.letters();
    let count = letters.len();
    if count == 0 {
        return None;
    }
    let Some(m) = read_mono(letters, word) else {
        return None;
    };
    if m.degree() == d { Some(m) } else { None }
}
