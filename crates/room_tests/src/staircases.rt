//! Staircases that were worked out by hand. The monomials in x and y have the ranks 1, x, y, x^2, x*y, y^2, ..

use mono_rank::RankTable;
use staircase::{Ranks, Stair};
use std::test::Fail;

#[test]
fn staircase_of_squares(rt: HostRuntime) -> Result<(), Fail> {
    let table = RankTable::new(rt.alloc(), 2, 4)?;
    if table.count() != 15 {
        return Err("another number of monomials")?;
    }
    // x^2 and y^2 leave 1, x, y and x*y.
    let stair = Stair::of(rt.alloc(), &table, &[3, 5])?;
    assert!(rt; stair.list().as_slice() == &[0, 1, 2, 4][..]);
    assert!(rt; [stair.dimension(), stair.count(1), stair.count(5)] == [4, 2, 0]);
    assert!(rt; [stair.corner(), stair.first_missing()] == [Some(4), None]);
    Ok(())
}

#[test]
fn staircase_of_no_leads(rt: HostRuntime) -> Result<(), Fail> {
    let table = RankTable::new(rt.alloc(), 1, 2)?;
    let stair = Stair::of(rt.alloc(), &table, &[])?;
    assert!(rt; stair.list().as_slice() == &[0, 1, 2][..]);
    assert!(rt; stair.first_missing() == Some(2));
    Ok(())
}

#[test]
fn lists_of_ranks(rt: HostRuntime) -> Result<(), Fail> {
    let mut ranks = Ranks::new(rt.alloc());
    ranks.push(3)?;
    ranks.push(5)?;
    assert!(rt; ranks.len() == 2 && ranks.get(1) == 5);
    assert!(rt; ranks.into_vec().as_slice() == &[3, 5][..]);
    Ok(())
}
