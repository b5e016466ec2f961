//! The polynomials that words stand for.

ghost use Rattle.std.specs.Prelude.{◌≡◌, ◌≢◌, ℕ, ◌+◌, ◌*◌, ◌%◌, ◌<◌, ◌≤◌, true, false, [], ◌∷◌, length, map, Contains, IfOk, IfSome, IfNone};
ghost use Rattle.local_order.specs.Limits.{max_exponent};
ghost use Rattle.prime_field.specs.Decimal.{AreDigits, value_of};
ghost use Rattle.prime_field.specs.Inverse.{inverse};
ghost use Rattle.local_order.specs.Mono.{degree, mono_one};
ghost use Rattle.sparse_poly.specs.Poly.{Poly as Terms};
ghost use Rattle.sparse_poly.specs.Canonical.{canonical};
ghost use Rattle.script_grammar.specs.Words.{digits_front, has_large, is_one_of};
ghost use Rattle.script_grammar.specs.Meaning.{in_ring, short_poly, value_in, coefficient_of as coefficient_in, opposite as opposite_of};
ghost use Rattle.expression_reader.specs.NamesView.{declarations_of, declared_poly, values_of};
ghost use Rattle.expression_reader.specs.declared.names.NamedPoly.{NamedPoly};
ghost use Rattle.expression_reader.specs.Sound.{IsSound, IsValue};
ghost use Rattle.expression_reader.specs.Constant.{IsConstant, short_mono};

use crate::names::{NamedPoly, Names};
use local_order::{MAX_VARIABLES, Mono};
use prime_field::Field;
use script_tokens::{coefficient, letter_exponent, same};
use sparse_poly::{Poly, PolyTerm};
use std::alloc::{AllocError, Global};

/// The polynomial of one term.
fn term(alloc: Global, names: &Names, mono: Mono, residue: u32) -> Result<Poly, AllocError>
    requires sound { IsSound names.now }
    requires variables { length mono ≡ length names.now.letters }
    ensures value { IfOk result (λ f. f.terms ≡ canonical names.now.field (record { mono = mono; coef = residue } ∷ [])) }
    ensures valid { IfOk result (IsValue names.now.field (length names.now.letters)) }
{
    let mut terms = Vec::with_capacity(alloc, 1)?;
    terms.push(PolyTerm {
        mono,
        coef: residue,
    })?;
    Poly::from_terms(alloc, &names.field, names.letters.len() as u32, terms)
}

/// The monomial 1.
fn one(names: &Names) -> Mono
    requires sound { IsSound names.now }
    ensures { result ≡ mono_one (length names.now.letters) }
{
    let exponents = [0; MAX_VARIABLES];
    let Some(one) = Mono::new(&exponents[..names.letters.len()]) else {
        unreachable!()
    };
    one
}

/// The constant polynomial of a residue.
pub fn constant(alloc: Global, names: &Names, residue: u32) -> Result<Poly, AllocError>
    requires sound { IsSound names.now }
    ensures value { IfOk result (λ f. IsConstant names.now residue f) }
    ensures valid { IfOk result (IsValue names.now.field (length names.now.letters)) }
{
    term(alloc, names, one(names), residue)
}

/// The residue of a numeral over another residue.
#[tactic(auto, using(crate::proofs::Constants::product_of_residue))]
pub fn quotient(field: &Field, above: &[u8], below: u32) -> u32
    requires digits { AreDigits above.now }
    requires residue { below < field.now }
    requires some { below ≢ 0 }
    ensures { result ≡ (value_of above.now * inverse field.now below) % field.now }
{
    field.mul(field.from_decimal(above), field.inv(below))
}

/// The exponents of a short monomial, where none is above the greatest.
fn exponents(names: &Names, word: &[u8]) -> Option<Mono>
    requires sound { IsSound names.now }
    requires small { has_large word.now ≡ false }
    ensures some { IfSome result (λ m. m ≡ short_mono names.now.letters word.now) }
    ensures none { IfNone result (max_exponent < degree (short_mono names.now.letters word.now)) }
{
    let n = names.letters.len();
    let mut exps = [0; MAX_VARIABLES];
    for i in 0..n {
        exps[i] = letter_exponent(word, names.letters.get(i))?;
    }
    Mono::new(&exps[..n])
}

/// The polynomial of a short monomial.
pub fn short_value(alloc: Global, names: &Names, word: &[u8]) -> Result<Poly, AllocError>
    requires sound { IsSound names.now }
    requires small { has_large word.now ≡ false }
    ensures value { IfOk result (λ f. f.terms ≡ in_ring (values_of names.now) (short_poly names.now.letters word.now)) }
    ensures valid { IfOk result (IsValue names.now.field (length names.now.letters)) }
{
    match exponents(names, word) {
        Some(mono) if mono.degree() <= names.d + 1 => term(
            alloc,
            names,
            mono,
            coefficient_of(names, word),
        ),
        _ => Ok(Poly::zero(alloc, names.letters.len() as u32)),
    }
}

/// The residue of the coefficient of a short monomial.
fn coefficient_of(names: &Names, word: &[u8]) -> u32
    requires sound { IsSound names.now }
    ensures { result ≡ coefficient_in (digits_front word.now) % names.now.field }
{
    match coefficient(word) {
        [] => 1 % names.field.prime(),
        digits => names.field.from_decimal(digits),
    }
}

/// The polynomial with all signs turned.
#[tactic(auto, using(sparse_poly::proofs::Sorted::residues_of))]
pub fn opposite(alloc: Global, names: &Names, f: &Poly) -> Result<Poly, AllocError>
    requires sound { IsSound names.now }
    requires value { IsValue names.now.field (length names.now.letters) f.now }
    ensures value { IfOk result (λ g. g.terms ≡ canonical names.now.field (opposite_of names.now.field f.now.terms)) }
    ensures valid { IfOk result (IsValue names.now.field (length names.now.letters)) }
{
    Poly::zero(alloc, f.n()).sub(alloc, &names.field, f)
}
