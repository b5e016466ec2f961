//! Values in x and y that tests are written with.

ghost use Rattle.std.specs.Prelude.{◌≡◌, length, IfOk};
ghost use Rattle.sparse_poly.specs.Poly.{HasResidues, IsCanonical};

use local_order::Mono;
use prime_field::Field;
use sparse_poly::{Poly, PolyTerm};
use std::alloc::Global;
use std::test::Fail;

/// The exponents of x and y.
pub type Exponents = [u16; 2];

/// The exponents of x and y in a term, and its coefficient.
pub type Written = (Exponents, u32);

/// The monomials in x and y of degree at most 4, falling: 1, x, y, x^2, x*y, y^2, ..
pub const FALLING: [Exponents; 15] = [
    [0, 0],
    [1, 0],
    [0, 1],
    [2, 0],
    [1, 1],
    [0, 2],
    [3, 0],
    [2, 1],
    [1, 2],
    [0, 3],
    [4, 0],
    [3, 1],
    [2, 2],
    [1, 3],
    [0, 4],
];

/// The field of that prime.
pub fn field(p: u32) -> Result<Field, Fail>
    ensures { IfOk result (λ f. f ≡ p) }
{
    Ok(Field::of(p).ok_or("no field")?)
}

/// The monomial with these exponents.
pub fn mono(exponents: &Exponents) -> Result<Mono, Fail>
    ensures { IfOk result (λ m. length m ≡ 2) }
{
    Ok(Mono::new(&exponents[..]).ok_or("no monomial")?)
}

/// The term with these exponents and this coefficient.
pub fn term(written: &Written) -> Result<PolyTerm, Fail>
    ensures { IfOk result (λ t. length t.mono ≡ 2) }
{
    Ok(PolyTerm {
        mono: mono(&written.0)?,
        coef: written.1,
    })
}

/// The polynomial with these terms.
#[tactic(auto, using(sparse_poly::proofs::Sorted::residues_of))]
pub fn poly(alloc: Global, field: &Field, terms: &[Written]) -> Result<Poly, Fail>
    ensures variables { IfOk result (λ f. f.n ≡ 2) }
    ensures canonical { IfOk result (λ f. IsCanonical field.now 2 f.terms) }
    ensures residues { IfOk result (λ f. HasResidues field.now f.terms) }
{
    let mut all = Vec::new(alloc);
    for written in terms {
        all.push(term(written)?)?;
    }
    Ok(Poly::from_terms(alloc, field, 2, all)?)
}

/// Whether the polynomial has these terms, in this order.
pub fn has_terms(f: &Poly, expected: &[Written]) -> bool {
    f.n() == 2
        && f.len() == expected.len()
        && (0..f.len()).all(|i| is_term(&f.get(i), &expected[i]))
}

/// Whether the term has these exponents and this coefficient.
fn is_term(term: &PolyTerm, expected: &Written) -> bool {
    let mono = &term.mono;
    mono.n() == 2
        && mono.exp(0) == expected.0[0]
        && mono.exp(1) == expected.0[1]
        && term.coef == expected.1
}
