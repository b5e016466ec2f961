//! Rows that were worked out by hand, modulo 7 in x and y up to degree 4.

ghost use Rattle.std.specs.Prelude.{◌≡◌, length, ◌<◌, IfOk, IfSome};
ghost use Rattle.rank_algebra.specs.Rows.{IsRow};

use crate::build::{Exponents, FALLING, Written, field, has_terms, poly};
use mono_rank::RankTable;
use prime_field::Field;
use sparse_poly::Poly;
use std::alloc::Global;
use std::test::Fail;
use trunc_row::Row;

/// The row of these terms.
fn row(alloc: Global, table: &RankTable, terms: &[Written]) -> Result<Row, Fail>
    requires { table.now ≡ record { variables = 2; degree = 4 } }
    ensures { IfOk result (IsRow 7 15) }
{
    let terms = poly(alloc, &field(7)?, terms)?;
    let mut row = Row::zero(alloc, table.count())?;
    row.set_poly(table, &terms);
    Ok(row)
}

/// Whether a row has these coefficients at these ranks, and 0 elsewhere.
fn has(row: &Row, terms: &[(u32, u32)]) -> bool {
    for rank in 0..row.len() {
        let mut want = 0;
        for (at, coef) in terms {
            if *at == rank {
                want = *coef;
            }
        }
        if row.get(rank) != want {
            return false;
        }
    }
    true
}

// 3x + 5y^2 + x^5, whose last term is cut
const CUT: &[Written] = &[([1, 0], 3), ([0, 2], 5), ([5, 0], 1)];
// y + 4x^3 + x^4
const TAILED: &[Written] = &[([0, 1], 1), ([3, 0], 4), ([4, 0], 1)];

/// The rank of the lead, and the greatest degree.
fn ends(table: &RankTable, row: &Row) -> [Option<u32>; 2]
    requires table { table.now ≡ record { variables = 2; degree = 4 } }
    requires row { length row.now ≡ 15 }
{
    let _count = table.count();
    [row.lead(), row.top_degree(table)]
}

#[test]
fn leads_and_degrees(rt: HostRuntime) -> Result<(), Fail> {
    let table = RankTable::new(rt.alloc(), 2, 4)?;
    let f = row(rt.alloc(), &table, CUT)?;
    let g = row(rt.alloc(), &table, TAILED)?;
    assert!(rt; [ends(&table, &f), ends(&table, &g)] == [[Some(1), Some(2)], [Some(2), Some(4)]]);
    Ok(())
}

/// The polynomial of the row of these terms.
fn back(alloc: Global, terms: &[Written]) -> Result<Poly, Fail> {
    let table = RankTable::new(alloc, 2, 4)?;
    let row = row(alloc, &table, terms)?;
    Ok(row.poly(alloc, &table, &field(7)?)?)
}

#[test]
fn polynomials_are_cut(rt: HostRuntime) -> Result<(), Fail> {
    let table = RankTable::new(rt.alloc(), 2, 4)?;
    let f = row(rt.alloc(), &table, CUT)?;
    let is_cut = f.len() == 15 && has(&f, &[(1, 3), (5, 5)]);
    let is_back = has_terms(&back(rt.alloc(), CUT)?, &[([1, 0], 3), ([0, 2], 5)]);
    assert!(rt; [is_cut, is_back] == [true; 2]);
    Ok(())
}

#[test]
fn zero(rt: HostRuntime) -> Result<(), Fail> {
    let table = RankTable::new(rt.alloc(), 2, 4)?;
    let z = Row::zero(rt.alloc(), 15)?;
    // x^5 is cut whole
    let f = row(rt.alloc(), &table, &[([5, 0], 1)])?;
    assert!(rt; (z.is_zero(), f.is_zero(), ends(&table, &z)) == (true, true, [None, None]));
    Ok(())
}

/// 3x + 5y^2 less 2x(y + 4x^3 + x^4) = 2xy + x^4, since 8 = 1 and x^5 is cut.
fn less(alloc: Global, table: &RankTable) -> Result<Row, Fail>
    requires { table.now ≡ record { variables = 2; degree = 4 } }
    ensures { IfOk result (IsRow 7 15) }
{
    let mut f = row(alloc, table, CUT)?;
    let g = row(alloc, table, TAILED)?;
    f.sub_multiple(table, &field(7)?, 2, 1, &g);
    Ok(f)
}

/// Whether f less 3f is -2f, and 3 times this is f again, since -6 = 1. The copy is left as f.
fn are_multiples(table: &RankTable, field: &Field, f: &Row, copy: &mut Row) -> [bool; 2]
    requires table { table.now ≡ record { variables = 2; degree = 4 } }
    requires field { field.now ≡ 7 }
    requires row { IsRow 7 15 f.now }
    requires copy { length copy.old ≡ 15 }
{
    copy.copy_from(f);
    copy.sub_multiple(table, field, 3, 0, f);
    let is_scaled = has(copy, &[(1, 1), (4, 4), (5, 4), (10, 2)]);
    copy.scale(field, 3);
    [is_scaled, has(copy, &[(1, 3), (4, 5), (5, 5), (10, 6)])]
}

#[test]
fn multiples(rt: HostRuntime) -> Result<(), Fail> {
    let table = RankTable::new(rt.alloc(), 2, 4)?;
    let f = less(rt.alloc(), &table)?;
    let mut copy = Row::zero(rt.alloc(), 15)?;
    let are = are_multiples(&table, &field(7)?, &f, &mut copy);
    assert!(rt; (has(&f, &[(1, 3), (4, 5), (5, 5), (10, 6)]), are) == (true, [true; 2]));
    Ok(())
}

/// Whether x, y and y^4 times g are these multiples, whatever stood in the row, and x times 0 is 0.
fn are_shifted(table: &RankTable, g: &Row, zero: &Row, copy: &mut Row) -> [bool; 4]
    requires table { table.now ≡ record { variables = 2; degree = 4 } }
    requires row { length g.now ≡ 15 }
    requires zero { length zero.now ≡ 15 }
    requires copy { length copy.old ≡ 15 }
{
    copy.set_shifted(table, 1, g);
    let by_x = has(copy, &[(4, 1), (10, 4)]);
    copy.set_shifted(table, 2, g);
    let by_y = has(copy, &[(5, 1), (11, 4)]);
    copy.set_shifted(table, 1, zero);
    let of_zero = copy.is_zero();
    copy.set_shifted(table, 14, g);
    [by_x, by_y, of_zero, copy.is_zero()]
}

#[test]
fn shifts(rt: HostRuntime) -> Result<(), Fail> {
    let table = RankTable::new(rt.alloc(), 2, 4)?;
    let g = row(rt.alloc(), &table, TAILED)?;
    let zero = Row::zero(rt.alloc(), 15)?;
    let mut copy = Row::zero(rt.alloc(), 15)?;
    assert!(rt; are_shifted(&table, &g, &zero, &mut copy) == [true; 4]);
    Ok(())
}

// a term of each degree up to 4 at each monomial
const DENSE: &[Written] = &[
    ([0, 0], 1),
    ([1, 0], 2),
    ([0, 1], 3),
    ([2, 0], 4),
    ([1, 1], 5),
    ([0, 2], 6),
    ([3, 0], 1),
    ([2, 1], 2),
    ([1, 2], 3),
    ([0, 3], 4),
    ([4, 0], 5),
    ([3, 1], 6),
    ([2, 2], 1),
    ([1, 3], 2),
    ([0, 4], 3),
];

/// The place among the monomials of degree at most 4 of the product of two of them.
fn product(a: &Exponents, b: &Exponents) -> Option<usize>
    ensures { IfSome result (λ k. k < 15) }
{
    let sum = [a[0].saturating_add(b[0]), a[1].saturating_add(b[1])];
    FALLING.iter().position(|m| *m == sum)
}

/// Whether a row has the coefficients of DENSE at the products with a monomial, and 0 elsewhere.
fn is_multiple(a: &Exponents, row: &Row) -> bool
    requires { length row.now ≡ 15 }
{
    let mut wanted = [0; 15];
    for (b, coef) in DENSE {
        if let Some(k) = product(a, b) {
            wanted[k] = *coef;
        }
    }
    row.residues() == wanted.as_slice()
}

#[test]
fn each_shift(rt: HostRuntime) -> Result<(), Fail> {
    let table = RankTable::new(rt.alloc(), 2, 4)?;
    let g = row(rt.alloc(), &table, DENSE)?;
    for shift in 0..15 {
        let mut copy = Row::zero(rt.alloc(), 15)?;
        copy.set_shifted(&table, shift, &g);
        assert!(rt;
            is_multiple(&FALLING[shift as usize], &copy),
            "by the monomial of rank {shift}"
        );
    }
    Ok(())
}

#[test]
fn rows_are_subtracted(rt: HostRuntime) -> Result<(), Fail> {
    let table = RankTable::new(rt.alloc(), 2, 4)?;
    let mut f = row(rt.alloc(), &table, CUT)?;
    let g = row(rt.alloc(), &table, TAILED)?;
    f.sub_row(&field(7)?, 2, &g);
    // 3x + 5y^2 less 2y + 8x^3 + 2x^4
    assert!(rt; has(&f, &[(1, 3), (2, 5), (5, 5), (6, 6), (10, 5)]));
    Ok(())
}

#[test]
fn cuts(rt: HostRuntime) -> Result<(), Fail> {
    let table = RankTable::new(rt.alloc(), 2, 4)?;
    let mut f = less(rt.alloc(), &table)?;
    f.cut_at(5);
    let is_cut = has(&f, &[(1, 3), (4, 5)]);
    f.cut_at(0);
    assert!(rt; [is_cut, f.is_zero()] == [true; 2]);
    Ok(())
}
