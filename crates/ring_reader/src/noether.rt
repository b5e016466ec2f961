//! The noether statement.

ghost use Rattle.std.specs.Prelude.{◌≡◌, ◌≤◌, ◌<◌, ◌+◌, min, length, IfOk};
ghost use Rattle.local_order.specs.Limits.{max_degree, max_monomials};
ghost use Rattle.local_order.specs.Count.{monomial_count as number_of_monomials};
ghost use Rattle.sparse_poly.specs.Letters.{AreLetters};
ghost use Rattle.script_tokens.specs.PlaceView.{place_of};
ghost use Rattle.script_tokens.specs.Reads.{ReadsAs};
ghost use Rattle.script_grammar.specs.Statements.{factor_at, monomial_at, factor_degree, degree_of, noether_at};
ghost use Rattle.expression_reader.specs.Gives.{meant};
ghost use Rattle.ring_reader.specs.Capped.{capped};

use local_order::{MAX_DEGREE, MAX_MONOMIALS, monomial_count};
use script_grammar::{ReadKind, Refusal, What};
use script_tokens::{
    Place, behind, degree_within, exponent, has_large, is_mark, is_short, mark, name, refused,
};
use sparse_poly::Letters;

/// A factor of the noether monomial, by its degree, which is 256 where it is more.
#[tactic(auto, unfolding(script_grammar::specs::Statements::factor_at))]
fn factor<'a>(letters: &Letters, here: Place<'a>) -> Result<(u32, Place<'a>), Refusal>
    ensures reads { ReadsAs (λ x. (x.0, place_of x.1)) result (meant (λ f. capped (factor_degree f)) (factor_at letters.now (place_of here.entry))) }
    ensures low { IfOk result (λ x. x.0 ≤ 256) }
    ensures shorter { IfOk result (λ x. x.1.left < here.entry.left) }
{
    let Some(word) = name(here) else {
        return Err(refused(here, ReadKind::Expected(What::Monomial)));
    };
    if !is_short(letters.bytes(), word) {
        return Err(refused(here, ReadKind::UnknownName));
    }
    if has_large(word) {
        return Err(refused(here, ReadKind::ExponentTooLarge));
    }
    let after = behind(here);
    if word.len() == 1 && is_mark(after, b'^') {
        let (n, after) = exponent(behind(after))?;
        return Ok((n.min(MAX_DEGREE + 1), after));
    }
    Ok((degree_within(MAX_DEGREE, word), after))
}

/// The noether monomial, by its degree, which is 256 where it is more.
fn monomial<'a>(letters: &Letters, here: Place<'a>) -> Result<(u32, Place<'a>), Refusal>
    ensures reads { ReadsAs (λ x. (x.0, place_of x.1)) result (meant (λ m. capped (degree_of m)) (monomial_at letters.now (place_of here.entry))) }
    ensures low { IfOk result (λ x. x.0 ≤ 256) }
    ensures shorter { IfOk result (λ x. x.1.left < here.entry.left) }
{
    let (mut degree, mut after) = factor(letters, here)?;
    while is_mark(after, b'*') {
        let (more, next) = factor(letters, behind(after))?;
        degree = (degree + more).min(MAX_DEGREE + 1);
        after = next;
    }
    Ok((degree, after))
}

/// The noether degree, from behind the word `noether` on. It is tested before what stands behind the monomial.
#[tactic(auto, unfolding(script_grammar::specs::Statements::noether_at))]
pub(crate) fn noether<'a>(letters: &Letters, here: Place<'a>) -> Result<(u32, Place<'a>), Refusal>
    requires letters { AreLetters letters.now }
    ensures reads { ReadsAs (λ x. (x.0, place_of x.1)) result (meant degree_of (noether_at letters.now (place_of here.entry))) }
    ensures some { IfOk result (λ x. 1 ≤ x.0) }
    ensures low { IfOk result (λ x. x.0 ≤ max_degree) }
    ensures few { IfOk result (λ x. number_of_monomials (length letters.now) x.0 ≤ max_monomials) }
    ensures shorter { IfOk result (λ x. x.1.left < here.entry.left) }
{
    let start = mark(here, b'=', What::Equals)?;
    let (degree, after) = monomial(letters, start)?;
    if degree == 0 || degree > MAX_DEGREE {
        return Err(refused(start, ReadKind::NoetherDegree));
    }
    let count = monomial_count(letters.len() as u32, degree);
    if count > MAX_MONOMIALS {
        return Err(refused(start, ReadKind::TooManyMonomials(count)));
    }
    let after = mark(after, b';', What::Operator)?;
    Ok((degree, after))
}
