//! Lines of certificates, added to a text.

ghost use Rattle.std.specs.Prelude.{◌≡◌, ◌++◌, decimal, length, string_bytes, OnOk};
ghost use Rattle.std.specs.List.{AllByRecursion};
ghost use Rattle.text_out.specs.Texts.{Adds};
ghost use Rattle.cert_grammar.specs.Lines.{line_text, text as lines_text};
ghost use Rattle.cert_grammar.specs.Words.{IsPolyOf, IsMonoOf, poly_word, mono_word};
ghost use Rattle.cert_grammar.specs.Cert.{numbered, poly_line, in_turn, alone};

use cert_grammar::Ring;
use itoa::Buffer;
use local_order::Mono;
use sparse_poly::{Poly, Polys};
use std::alloc::{AllocError, Global};
use text_out::{mono_text, poly_text};

/// Adds a number in decimal.
pub(crate) fn push_number(text: &mut String, n: u64) -> Result<(), AllocError>
    ensures { OnOk result (Adds text.old text.new (decimal n)) }
{
    let mut buffer = Buffer::new();
    text.push_str(buffer.format(n))?;
    Ok(())
}

/// Adds a line of a word and a number.
pub(crate) fn push_numbered(text: &mut String, word: &str, n: u64) -> Result<(), AllocError>
    ensures { OnOk result (Adds text.old text.new (line_text (numbered word.now n))) }
{
    text.push_str(word)?;
    text.push_str(" ")?;
    push_number(text, n)?;
    text.push_str("\n")?;
    Ok(())
}

/// Adds a monomial.
pub(crate) fn push_mono(
    alloc: Global,
    text: &mut String,
    ring: &Ring,
    m: &Mono,
) -> Result<(), AllocError>
    requires { length m.now ≡ length ring.now.letters }
    ensures { OnOk result (Adds text.old text.new (mono_word ring.now m.now)) }
{
    let word = mono_text(alloc, ring.letters(), m)?;
    text.push_str(&word)?;
    Ok(())
}

/// Adds a polynomial.
fn push_poly(alloc: Global, text: &mut String, ring: &Ring, f: &Poly) -> Result<(), AllocError>
    requires { IsPolyOf ring.now f.now }
    ensures { OnOk result (Adds text.old text.new (poly_word ring.now f.now)) }
{
    let word = poly_text(alloc, ring.letters(), ring.field(), f)?;
    text.push_str(&word)?;
    Ok(())
}

/// Adds the line of an entry's polynomial.
pub(crate) fn push_poly_line(
    alloc: Global,
    text: &mut String,
    ring: &Ring,
    f: &Poly,
) -> Result<(), AllocError>
    requires { IsPolyOf ring.now f.now }
    ensures { OnOk result (Adds text.old text.new (line_text (poly_line ring.now f.now))) }
{
    text.push_str("poly ")?;
    push_poly(alloc, text, ring, f)?;
    text.push_str("\n")?;
    Ok(())
}

/// Adds polynomials, each in a line of its own.
pub(crate) fn push_polys(
    alloc: Global,
    text: &mut String,
    ring: &Ring,
    polys: &Polys,
) -> Result<(), AllocError>
    requires { AllByRecursion (IsPolyOf ring.now) polys.now }
    ensures { OnOk result (Adds text.old text.new (lines_text (in_turn (alone (poly_word ring.now)) 0 polys.now))) }
{
    for k in 0..polys.len() {
        push_poly(alloc, text, ring, polys.get(k))?;
        text.push_str("\n")?;
    }
    Ok(())
}
