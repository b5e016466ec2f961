//! The loops over the residues of rows.

ghost use Rattle.std.specs.Prelude.{◌≡◌, ℕ, List, ◌+◌, ◌<◌, ◌≤◌, length, All, slice_index};
ghost use Rattle.local_order.specs.Shape.{count};
ghost use Rattle.sparse_poly.specs.Poly.{HasResidues, coef};
ghost use Rattle.rank_algebra.specs.Rows.{IsRow, IsCutAt, IsScaled, Subtracts};
ghost use Rattle.mono_rank.specs.Rows.{SubtractsMultiple, IsRowOf};
ghost use Rattle.trunc_row.specs.Rows.{IsMultiple, SubtractsRun, IsRowOfTerms};
ghost use Rattle.entry_code.specs.Terms.{HasRisingRanks};

use entry_code::Terms;
use mono_rank::RankTable;
use prime_field::Field;
use sparse_poly::Poly;

/// Writes the coefficients of a polynomial at the places of their ranks, and 0 elsewhere.
pub(crate) fn write(row: &mut [u32], table: &RankTable, poly: &Poly)
    requires places { length row.old ≡ count table.now }
    requires variables { poly.now.n ≡ table.now.variables }
    ensures { (p : ℕ) → 0 < p → HasResidues p poly.now.terms → IsRowOf p table.now (coef p poly.now.terms) row.new }
{
    row.fill(0);
    for term in poly.terms() {
        if let Some(rank) = table.rank(&term.mono) {
            row[rank as usize] = term.coef;
        }
    }
}

/// Writes the coefficients of the terms at their ranks, and 0 elsewhere, into a row that is lent as its residues.
pub fn write_terms(row: &mut [u32], terms: &Terms)
    requires { HasRisingRanks (length row.old) terms.now.list }
    ensures { IsRowOfTerms (length row.old) terms.now.list row.new }
{
    row.fill(0);
    for i in 0..terms.len() {
        let term = terms.get(i);
        row[term.rank as usize] = term.coef;
    }
}

/// Subtracts `c` times the multiple, by the monomial of rank `shift`, of the polynomial with these terms, cut beyond the table's degree,
/// from a row that is lent as its residues. It costs a product of ranks for each term up to the first whose product is beyond the degree.
pub fn sub_terms(
    row: &mut [u32],
    table: &RankTable,
    field: &Field,
    c: u32,
    shift: u32,
    terms: &Terms,
)
    requires own { IsRow field.now (count table.now) row.old }
    requires ranks { HasRisingRanks (count table.now) terms.now.list }
    requires coefs { All (λ t. t.coef < field.now) terms.now.list }
    requires residue { c < field.now }
    requires shift { shift < count table.now }
    ensures row { IsRow field.now (count table.now) row.new }
    ensures value { (g : List ℕ) → IsRowOfTerms (count table.now) terms.now.list g
        → SubtractsMultiple field.now table.now c shift g row.old row.new }
{
    let _count = table.count();
    let factor = field.neg(c);
    for k in 0..terms.len() {
        let term = terms.get(k);
        // ranks rise, so where one product is beyond the degree those of all later terms are
        let Some(product) = table.times_rank(shift, term.rank) else {
            return;
        };
        let place = product as usize;
        row[place] = field.add_product(row[place], factor, term.coef);
    }
}

/// Drops the residues of rank `w` and more, of a row that is lent as its residues.
pub fn cut(row: &mut [u32], w: u32)
    ensures { IsCutAt w row.old row.new }
{
    for k in w as usize..row.len() {
        row[k] = 0;
    }
}

/// Subtracts `c` times another row.
pub(crate) fn subtract(field: &Field, row: &mut [u32], c: u32, other: &[u32])
    requires own { IsRow field.now (length other.now) row.old }
    requires other { IsRow field.now (length other.now) other.now }
    requires residue { c < field.now }
    ensures { Subtracts field.now c other.now row.old row.new }
{
    let factor = field.neg(c);
    for k in 0..row.len() {
        if other[k] != 0 {
            row[k] = field.add_product(row[k], factor, other[k]);
        }
    }
}

/// Subtracts `c` times `count` residues of another row, from place `from` on, at as many places from `to` on.
fn subtract_run(
    row: &mut [u32],
    field: &Field,
    c: u32,
    other: &[u32],
    from: usize,
    to: usize,
    count: usize,
)
    requires own { IsRow field.now (length other.now) row.old }
    requires other { IsRow field.now (length other.now) other.now }
    requires residue { c < field.now }
    requires from { from + count ≤ length other.now }
    requires to { to + count ≤ length other.now }
    ensures { SubtractsRun field.now c from to count other.now row.old row.new }
{
    let factor = field.neg(c);
    for k in 0..count {
        let coef = other[from + k];
        if coef != 0 {
            row[to + k] = field.add_product(row[to + k], factor, coef);
        }
    }
}

/// Subtracts `c` times the multiple of another row by the monomial of rank `shift`. By the monomial 1, [`subtract`] costs less.
///
/// Ranks come in runs, whose products follow each other as they do, so a product is looked up once a run.
pub(crate) fn subtract_shifted(
    row: &mut [u32],
    table: &RankTable,
    field: &Field,
    c: u32,
    shift: u32,
    other: &[u32],
)
    requires own { IsRow field.now (count table.now) row.old }
    requires other { IsRow field.now (count table.now) other.now }
    requires residue { c < field.now }
    requires shift { shift < count table.now }
    ensures { SubtractsMultiple field.now table.now c shift other.now row.old row.new }
{
    let count = table.count();
    let mut rank = 0;
    while rank < count {
        if let Some(product) = table.times_rank(shift, rank) {
            let run = table.run_from(rank);
            let (from, to) = (rank as usize, product as usize);
            subtract_run(row, field, c, other, from, to, run as usize);
            rank += run;
        } else {
            // later monomials have no lesser degree, so their products are beyond the table's too
            rank = count;
        }
    }
}

/// Copies `count` residues of another row, from place `from` on, to as many places from `to` on.
fn copy_run(row: &mut [u32], other: &[u32], from: usize, to: usize, count: usize)
    requires from { from + count ≤ length other.now }
    requires to { to + count ≤ length row.old }
    ensures full { length row.new ≡ length row.old }
    ensures inside { (k : ℕ) → k < count → slice_index row.new (to + k) ≡ slice_index other.now (from + k) }
    ensures before { (j : ℕ) → j < to → slice_index row.new j ≡ slice_index row.old j }
    ensures behind { (j : ℕ) → to + count ≤ j → slice_index row.new j ≡ slice_index row.old j }
{
    row[to..to + count].copy_from_slice(&other[from..from + count]);
}

/// Becomes the multiple of another row by the monomial of rank `shift`, cut beyond the table's degree.
///
/// Ranks come in runs, whose products follow each other as they do, so a run is copied whole to where the first of its products is.
pub(crate) fn put_shifted(row: &mut [u32], table: &RankTable, shift: u32, other: &[u32])
    requires own { length row.old ≡ count table.now }
    requires other { length other.now ≡ count table.now }
    requires shift { shift < count table.now }
    ensures { IsMultiple table.now shift other.now row.new }
{
    row.fill(0);
    let count = table.count();
    let mut rank = 0;
    while rank < count {
        // later monomials have no lesser degree, so where one product is beyond the table's degree theirs are
        let Some(product) = table.times_rank(shift, rank) else {
            return;
        };
        let run = table.run_from(rank);
        copy_run(row, other, rank as usize, product as usize, run as usize);
        rank += run;
    }
}

/// Multiplies each residue.
pub(crate) fn multiply(field: &Field, row: &mut [u32], c: u32)
    requires row { IsRow field.now (length row.old) row.old }
    requires residue { c < field.now }
    ensures { IsScaled field.now c row.old row.new }
{
    for k in row.iter_mut() {
        *k = field.mul(c, *k);
    }
}
