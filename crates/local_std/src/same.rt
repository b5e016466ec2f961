// Whether two problems are the same.
ghost use Rattle.std.specs.Prelude.{◌≡◌, ◌↔◌, IsTrue};

use local_order::Mono;
use sparse_poly::{Poly, PolyTerm, Polys, Problem};
use std::cmp::Ordering;

/// Whether these are one problem: one field, number of variables and degree, and the same generators in the same order.
pub fn is_same_problem(a: &Problem, b: &Problem) -> bool
    ensures { IsTrue result ↔ a.now ≡ b.now }
{
    if a.field().prime() != b.field().prime() || a.n() != b.n() || a.d() != b.d() {
        return false;
    }
    are_same(a.gens(), b.gens())
}

/// Whether these are the same polynomials in the same order.
fn are_same(a: &Polys, b: &Polys) -> bool
    ensures { IsTrue result ↔ a.now ≡ b.now }
{
    if a.len() != b.len() {
        return false;
    }
    for k in 0..a.len() {
        if !is_same_poly(a.get(k), b.get(k)) {
            return false;
        }
    }
    true
}

/// Whether these have one number of variables and the same terms.
fn is_same_poly(a: &Poly, b: &Poly) -> bool
    ensures { IsTrue result ↔ a.now ≡ b.now }
{
    if a.n() != b.n() || a.len() != b.len() {
        return false;
    }
    for k in 0..a.len() {
        if !is_same_term(a.get(k), b.get(k)) {
            return false;
        }
    }
    true
}

/// Whether these are one coefficient and one monomial.
fn is_same_term(a: PolyTerm, b: PolyTerm) -> bool
    ensures { IsTrue result ↔ a ≡ b }
{
    if a.coef != b.coef {
        return false;
    }
    is_same_mono(&a.mono, &b.mono)
}

/// Whether these are one monomial.
fn is_same_mono(a: &Mono, b: &Mono) -> bool
    ensures { IsTrue result ↔ a.now ≡ b.now }
{
    if a.n() != b.n() {
        return false;
    }
    match a.cmp_ds(b) {
        Ordering::Equal => true,
        _ => false,
    }
}
