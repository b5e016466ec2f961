//! The polynomial of a row.

ghost use Rattle.std.specs.Prelude.{◌≡◌, length, IfOk};
ghost use Rattle.local_order.specs.Shape.{count};
ghost use Rattle.sparse_poly.specs.Poly.{IsCanonical, in_variables, coef};
ghost use Rattle.rank_algebra.specs.Rows.{IsRow};
ghost use Rattle.mono_rank.specs.Rows.{IsRowOf};
ghost use Rattle.trunc_row.specs.Polynomials.{poly_of_row};

use mono_rank::RankTable;
use prime_field::Field;
use sparse_poly::{Poly, PolyTerm};
use std::alloc::{AllocError, Global};

/// The polynomial of a row that is lent as its residues: a term for each that isn't 0.
pub fn poly_of(
    alloc: Global,
    table: &RankTable,
    field: &Field,
    row: &[u32],
) -> Result<Poly, AllocError>
    requires { IsRow field.now (count table.now) row.now }
    ensures value { IfOk result (λ f. f ≡ in_variables table.now.variables (poly_of_row table.now row.now)) }
    ensures canonical { IfOk result (λ f. IsCanonical field.now table.now.variables f.terms) }
    ensures polynomial { IfOk result (λ f. IsRowOf field.now table.now (coef field.now f.terms) row.now) }
{
    let terms = terms_of(alloc, table, row)?;
    Poly::from_terms(alloc, field, table.n(), terms)
}

/// The terms of a row, the greatest monomial first.
fn terms_of(alloc: Global, table: &RankTable, row: &[u32]) -> Result<Vec<PolyTerm>, AllocError>
    requires { length row.now ≡ count table.now }
    ensures { IfOk result (λ terms. terms.items ≡ poly_of_row table.now row.now) }
{
    let mut terms = Vec::new(alloc);
    for rank in 0..table.count() {
        let coef = row[rank as usize];
        if coef != 0 {
            terms.push(PolyTerm {
                mono: table.mono(rank),
                coef,
            })?;
        }
    }
    Ok(terms)
}
