//! The lines of a block before its entries.

ghost use Rattle.std.specs.Prelude.{◌≡◌, ◌<◌, ◌∷◌, ◌++◌, [], codes, string_bytes, IfOk, OnOk};
ghost use Rattle.std.specs.List.{AllByRecursion};
ghost use Rattle.text_out.specs.Texts.{Adds};
ghost use Rattle.cert_grammar.specs.Lines.{line_text, text as lines_text};
ghost use Rattle.cert_grammar.specs.Words.{IsPolyOf, poly_word};
ghost use Rattle.cert_grammar.specs.Cert.{numbered, vars_line, counted, alone};

use crate::lines::{push_numbered, push_polys};
use cert_grammar::Ring;
use sparse_poly::{Letters, Polys};
use std::alloc::{AllocError, Global};

/// Adds the line of the variables.
fn push_vars(text: &mut String, letters: &Letters) -> Result<(), AllocError>
    ensures { OnOk result (Adds text.old text.new (line_text (vars_line letters.now))) }
{
    text.push_str("vars")?;
    for i in 0..letters.len() {
        push_letter(text, letters.get(i))?;
    }
    text.push_str("\n")?;
    Ok(())
}

/// Adds a letter behind a blank.
fn push_letter(text: &mut String, letter: u8) -> Result<(), AllocError>
    requires { letter < 128 }
    ensures { OnOk result (Adds text.old text.new (32 ∷ letter ∷ [])) }
{
    text.push(' ')?;
    text.push(char::from(letter))?;
    Ok(())
}

/// Adds the lines of the ring of a block with its number.
fn push_ring(text: &mut String, index: u32, ring: &Ring) -> Result<(), AllocError>
    ensures { OnOk result (Adds text.old text.new (lines_text (numbered (codes "block") index ∷ numbered (codes "p") ring.now.p
        ∷ vars_line ring.now.letters ∷ numbered (codes "D") ring.now.d ∷ []))) }
{
    push_numbered(text, "block", u64::from(index))?;
    push_numbered(text, "p", u64::from(ring.field().prime()))?;
    push_vars(text, ring.letters())?;
    push_numbered(text, "D", u64::from(ring.d()))
}

/// Adds how many generators there are, and those.
fn push_gens(alloc: Global, text: &mut String, ring: &Ring, gens: &Polys) -> Result<(), AllocError>
    requires { AllByRecursion (IsPolyOf ring.now) gens.now }
    ensures { OnOk result (Adds text.old text.new (lines_text (counted (codes "gens") (alone (poly_word ring.now)) gens.now))) }
{
    push_numbered(text, "gens", gens.len() as u64)?;
    push_polys(alloc, text, ring, gens)
}

/// The lines of a block with its number, up to that with the number of its entries.
pub(crate) fn front_text(
    alloc: Global,
    index: u32,
    ring: &Ring,
    gens: &Polys,
    entry_count: usize,
) -> Result<String, AllocError>
    requires { AllByRecursion (IsPolyOf ring.now) gens.now }
    ensures { IfOk result (λ s. string_bytes s ≡ lines_text ((numbered (codes "block") index ∷ numbered (codes "p") ring.now.p
        ∷ vars_line ring.now.letters ∷ numbered (codes "D") ring.now.d ∷ [])
        ++ (counted (codes "gens") (alone (poly_word ring.now)) gens.now ++ numbered (codes "entries") entry_count ∷ []))) }
{
    let mut text = String::new(alloc);
    push_ring(&mut text, index, ring)?;
    push_gens(alloc, &mut text, ring, gens)?;
    push_numbered(&mut text, "entries", entry_count as u64)?;
    Ok(text)
}
