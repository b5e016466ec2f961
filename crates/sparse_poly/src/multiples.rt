//! Multiples of polynomials by one term, and terms one by one.

ghost use Rattle.std.specs.Prelude.{◌≡◌, ℕ, ◌<◌, ◌≤◌, [], ◌++◌, length, IfOk, OnOk};
ghost use Rattle.local_order.specs.Limits.{max_exponent};
ghost use Rattle.sparse_poly.specs.Poly.{cut, term_times, IsCanonical};
ghost use Rattle.sparse_poly.specs.Canonical.{canonical, in_front};

use crate::term::PolyTerm;
use local_order::Mono;
use prime_field::Field;
use std::alloc::{AllocError, Global};

/// Puts one more term at the end, unless its coefficient is 0.
#[inline]
pub(crate) fn push_term(terms: &mut Vec<PolyTerm>, mono: Mono, coef: u32) -> Result<(), AllocError>
    ensures { OnOk result (terms.new.items ≡ terms.old.items ++ in_front coef mono []) }
{
    if coef != 0 {
        terms.push(PolyTerm { mono, coef })?;
    }
    Ok(())
}

/// The terms of the multiple by a constant.
pub(crate) fn scaled(
    alloc: Global,
    field: &Field,
    factor: u32,
    terms: &[PolyTerm],
) -> Result<Vec<PolyTerm>, AllocError>
    requires own { (n : ℕ) × IsCanonical field.now n terms.now }
    requires residue { factor < field.now }
    ensures { IfOk result (λ v. v.items ≡ canonical field.now (term_times factor [] terms.now)) }
{
    let mut made = Vec::with_capacity(alloc, terms.len())?;
    for term in terms {
        push_term(&mut made, term.mono, field.mul(factor, term.coef))?;
    }
    Ok(made)
}

/// The terms of the multiple by one term that are not above a degree.
pub(crate) fn multiple(
    alloc: Global,
    field: &Field,
    factor: &PolyTerm,
    terms: &[PolyTerm],
    degree: u32,
) -> Result<Vec<PolyTerm>, AllocError>
    requires own { IsCanonical field.now (length factor.now.mono) terms.now }
    requires residue { factor.now.coef < field.now }
    requires degree { degree ≤ max_exponent }
    ensures { IfOk result (λ v.
        v.items ≡ canonical field.now (cut degree (term_times factor.now.coef factor.now.mono terms.now))) }
{
    let mut made = Vec::with_capacity(alloc, terms.len())?;
    for term in terms {
        if factor.mono.degree() + term.mono.degree() > degree {
            // no term behind this one has a lesser degree
            break;
        }
        let Some(mono) = factor.mono.times(&term.mono) else {
            unreachable!()
        };
        push_term(&mut made, mono, field.mul(factor.coef, term.coef))?;
    }
    Ok(made)
}
