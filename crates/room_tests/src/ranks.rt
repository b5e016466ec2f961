//! Ranks that were worked out by hand, and whole tables.

ghost use Rattle.std.specs.Prelude.{◌≡◌};

use crate::build::{FALLING, mono};
use mono_rank::{RankError, RankTable};
use std::alloc::Global;
use std::test::Fail;

/// Whether the monomials have their ranks.
fn are_ranked(table: &RankTable) -> Result<bool, Fail>
    requires { table.now.variables ≡ 2 }
{
    for (r, exps) in FALLING.iter().enumerate() {
        if table.rank(&mono(exps)?) != Some(r as u32) {
            return Ok(false);
        }
    }
    Ok(table.count() == 15 && table.rank(&mono(&[5, 0])?).is_none())
}

/// The rank of the first monomial of each degree.
fn firsts(table: &RankTable) -> [u32; 5]
    requires { table.now.degree ≡ 4 }
{
    [
        table.first_of_degree(0),
        table.first_of_degree(1),
        table.first_of_degree(2),
        table.first_of_degree(3),
        table.first_of_degree(4),
    ]
}

#[test]
fn monomials_of_degree_four(rt: HostRuntime) -> Result<(), Fail> {
    let table = RankTable::new(rt.alloc(), 2, 4)?;
    assert!(rt; are_ranked(&table)?);
    assert!(rt; firsts(&table) == [0, 1, 3, 6, 10]);
    Ok(())
}

#[test]
fn products_and_divisors(rt: HostRuntime) -> Result<(), Fail> {
    let table = RankTable::new(rt.alloc(), 2, 4)?;
    if table.count() != 15 {
        return Err("another number of monomials")?;
    }
    // x times x*y is x^2*y, y^2 times y^2 is y^4, and x^3 times y^2 has degree 5.
    let products = [
        table.times_rank(1, 4),
        table.times_rank(5, 5),
        table.times_rank(6, 5),
    ];
    assert!(rt; products == [Some(7), Some(14), None]);
    let divide = [table.divides_rank(4, 12), table.divides_rank(5, 11)];
    assert!(rt; divide == [true, false] && table.degree_of(12) == 4);
    Ok(())
}

#[test]
fn too_many(rt: HostRuntime) {
    let refused = RankTable::new(rt.alloc(), 2, 90).err();
    assert!(rt; refused == Some(RankError::TooManyMonomials(4186)));
}

/// Whether there are so many monomials, and each has its rank.
fn has_ranks(alloc: Global, n: u32, d: u32, count: u32) -> Result<bool, Fail> {
    if n < 1 || n > 8 || d > 255 {
        return Err("beyond the limits")?;
    }
    let table = RankTable::new(alloc, n, d)?;
    for r in 0..table.count() {
        if table.rank(&table.mono(r)) != Some(r) {
            return Ok(false);
        }
    }
    Ok(table.count() == count)
}

#[test]
fn greatest_degrees(rt: HostRuntime) -> Result<(), Fail> {
    for (n, d, count) in [
        (1, 255, 256),
        (2, 89, 4095),
        (3, 27, 4060),
        (4, 15, 3876),
        (5, 10, 3003),
        (6, 8, 3003),
        (7, 7, 3432),
        (8, 6, 3003),
    ] {
        assert!(rt; has_ranks(rt.alloc(), n, d, count)?, "{n} variables");
    }
    Ok(())
}
