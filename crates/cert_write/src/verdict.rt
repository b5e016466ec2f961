//! The lines of a block behind its entries.

ghost use Rattle.std.specs.Prelude.{◌≡◌, ◌∷◌, ◌++◌, [], codes, string_bytes, length, map, IfOk, OnOk};
ghost use Rattle.std.specs.List.{AllByRecursion};
ghost use Rattle.text_out.specs.Texts.{Adds};
ghost use Rattle.cert_grammar.specs.Lines.{line_text, text as lines_text};
ghost use Rattle.cert_grammar.specs.Words.{IsPolyOf, IsMonoOf, poly_word, mono_word};
ghost use Rattle.cert_grammar.specs.Cert.{numbered, counted, alone, corner_line, stair_line, fitting_lines, verdict_lines, IsVerdict};
ghost use Rattle.cert_grammar.specs.Certified.{verdict_of};
ghost use Rattle.cert_write.specs.Claim.{last_of, corner_of};

use crate::lines::{push_mono, push_number, push_numbered, push_polys};
use cert_grammar::Ring;
use sparse_poly::Polys;
use std::alloc::{AllocError, Global};
use text_out::{Answer, Monos};

/// Adds how many members the basis has, and those.
fn push_basis(
    alloc: Global,
    text: &mut String,
    ring: &Ring,
    basis: &Polys,
) -> Result<(), AllocError>
    requires { AllByRecursion (IsPolyOf ring.now) basis.now }
    ensures { OnOk result (Adds text.old text.new (lines_text (counted (codes "basis") (alone (poly_word ring.now)) basis.now))) }
{
    push_numbered(text, "basis", basis.len() as u64)?;
    push_polys(alloc, text, ring, basis)
}

/// Adds the line of the highest corner.
fn push_corner(
    alloc: Global,
    text: &mut String,
    ring: &Ring,
    stair: &Monos,
) -> Result<(), AllocError>
    requires { AllByRecursion (IsMonoOf ring.now) stair.now }
    ensures { OnOk result (Adds text.old text.new (line_text (corner_line ring.now (last_of stair.now)))) }
{
    let count = stair.len();
    if count == 0 {
        text.push_str("corner none\n")?;
        return Ok(());
    }
    text.push_str("corner ")?;
    push_mono(alloc, text, ring, stair.get(count - 1))?;
    text.push_str("\n")?;
    Ok(())
}

/// Adds the line of the staircase.
fn push_stair(
    alloc: Global,
    text: &mut String,
    ring: &Ring,
    stair: &Monos,
) -> Result<(), AllocError>
    requires { AllByRecursion (IsMonoOf ring.now) stair.now }
    ensures { OnOk result (Adds text.old text.new (line_text (stair_line ring.now stair.now))) }
{
    text.push_str("stair ")?;
    push_number(text, stair.len() as u64)?;
    for k in 0..stair.len() {
        text.push_str(" ")?;
        push_mono(alloc, text, ring, stair.get(k))?;
    }
    text.push_str("\n")?;
    Ok(())
}

/// Adds the lines of a problem whose degree fits.
fn push_fitting(
    alloc: Global,
    text: &mut String,
    ring: &Ring,
    basis: &Polys,
    stair: &Monos,
) -> Result<(), AllocError>
    requires basis { AllByRecursion (IsPolyOf ring.now) basis.now }
    requires stair { AllByRecursion (IsMonoOf ring.now) stair.now }
    ensures { OnOk result (Adds text.old text.new (codes "fits\n" ++ lines_text (fitting_lines ring.now
        (record { basis = basis.now; corner = last_of stair.now; stair = stair.now })))) }
{
    text.push_str("fits\n")?;
    push_basis(alloc, text, ring, basis)?;
    push_corner(alloc, text, ring, stair)?;
    push_stair(alloc, text, ring, stair)?;
    Ok(())
}

/// Adds the lines of an answer.
fn push_verdict(
    alloc: Global,
    text: &mut String,
    ring: &Ring,
    answer: &Answer,
) -> Result<(), AllocError>
    requires { IsVerdict ring.now (verdict_of answer.now (corner_of answer.now)) }
    ensures { OnOk result (Adds text.old text.new (lines_text (verdict_lines ring.now (verdict_of answer.now (corner_of answer.now))))) }
{
    match answer {
        Answer::Fits { basis, stair } => push_fitting(alloc, text, ring, basis, stair),
        Answer::TooSmall { missing } => {
            text.push_str("too small ")?;
            push_mono(alloc, text, ring, missing)?;
            text.push_str("\n")?;
            Ok(())
        }
    }
}

/// The lines of an answer, and the last line of a block with its number.
pub(crate) fn end_text(
    alloc: Global,
    index: u32,
    ring: &Ring,
    answer: &Answer,
) -> Result<String, AllocError>
    requires { IsVerdict ring.now (verdict_of answer.now (corner_of answer.now)) }
    ensures { IfOk result (λ s. string_bytes s ≡ lines_text (verdict_lines ring.now (verdict_of answer.now (corner_of answer.now))
        ++ numbered (codes "end") index ∷ [])) }
{
    let mut text = String::new(alloc);
    push_verdict(alloc, &mut text, ring, answer)?;
    push_numbered(&mut text, "end", u64::from(index))?;
    Ok(text)
}
