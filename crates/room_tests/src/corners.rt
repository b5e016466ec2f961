//! Corners of leads in x and y of degree at most 4, whose monomials have the ranks 1, x, y, x^2, x*y, y^2, ..

use corner_word::Cover;
use mono_rank::RankTable;
use std::test::Fail;

#[test]
fn corner_of_squares(rt: HostRuntime) -> Result<(), Fail> {
    let table = RankTable::new(rt.alloc(), 2, 4)?;
    let mut cover = Cover::new(rt.alloc(), &table)?;
    let without = cover.corner();
    // x^2 leaves the powers of y.
    cover.add(&table, 3);
    let one_square = cover.corner();
    // With y^2 the last that is no multiple is x*y.
    cover.add(&table, 5);
    let squares = cover.corner();
    // The lead 1.
    cover.add(&table, 0);
    assert!(rt; [without, one_square, squares, cover.corner()] == [15, 15, 5, 0]);
    Ok(())
}
