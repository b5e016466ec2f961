//! A multiple of a row subtracted lane by lane: worked examples, and random rows against the plain loop.

ghost use Rattle.std.specs.Prelude.{◌<◌, All, IsTrue};

use crate::build::field;
use prime_field::Field;
use row_kernel::update;
use std::test::Fail;

const GREATEST: u32 = 2147483647;

const LONGEST: usize = 130;

fn are_residues(p: u32, row: &[u32]) -> bool
    ensures { IsTrue result → All (λ x. x < p) row.now }
{
    row.iter().all(|x| *x < p)
}

/// Subtracts `c` times the other row, and answers whether the two are rows for that.
fn subtracted(field: &Field, out: &mut [u32], c: u32, other: &[u32]) -> bool {
    let p = field.prime();
    if out.len() != other.len() || c >= p || !are_residues(p, out) || !are_residues(p, other) {
        return false;
    }
    update(field, out, c, other);
    true
}

#[test]
fn worked_rows(rt: HostRuntime) -> Result<(), Fail> {
    let mut small = [1, 2, 3];
    assert!(rt; subtracted(&field(7)?, &mut small, 3, &[4, 5, 6]) && small == [3, 1, 6]);
    let mut last = [0];
    assert!(rt;
        subtracted(&field(GREATEST)?, &mut last, GREATEST - 1, &[GREATEST - 1])
            && last == [GREATEST - 1]
    );
    let mut none = [0; 0];
    assert!(rt; subtracted(&field(2)?, &mut none, 1, &[]));
    let mut long = [1; 4096];
    assert!(rt;
        subtracted(&field(65521)?, &mut long, 1, &[1; 4096]) && long.iter().all(|x| *x == 0)
    );
    Ok(())
}

/// The next of a fixed list of numbers: the upper bits of a congruential generator's state.
fn draw(state: &mut u64, below: u32) -> u32
    requires { 0 < below }
    ensures { result < below }
{
    *state = state
        .wrapping_mul(6364136223846793005)
        .wrapping_add(1442695040888963407);
    ((*state >> 33) % u64::from(below)) as u32
}

/// Residues at random, some of them the ends 0 and p - 1.
fn fill(state: &mut u64, p: u32, row: &mut [u32])
    requires { 1 < p }
{
    for x in row.iter_mut() {
        *x = match draw(state, 8) {
            0 => 0,
            1 => p - 1,
            _ => draw(state, p),
        };
    }
}

/// Whether a row is what the plain loop leaves of `old`.
fn is_plain(p: u32, old: &[u32], c: u32, other: &[u32], new: &[u32]) -> bool
    requires { 0 < p }
{
    if other.len() != old.len() || new.len() != old.len() {
        return false;
    }
    for k in 0..old.len() {
        let sum = u128::from(new[k]) + u128::from(c) * u128::from(other[k]);
        if sum % u128::from(p) != u128::from(old[k]) || new[k] >= p {
            return false;
        }
    }
    true
}

/// Whether so many random rows of each length up to 130 are left as by the plain loop.
fn is_plain_at_random(field: &Field, turns: u32) -> bool {
    let p = field.prime();
    let mut state = 20261202;
    let mut old = [0; LONGEST];
    let mut other = [0; LONGEST];
    for _ in 0..turns {
        let n = draw(&mut state, 131) as usize;
        let c = draw(&mut state, p);
        fill(&mut state, p, &mut old[..n]);
        fill(&mut state, p, &mut other[..n]);
        let mut new = old;
        if !subtracted(field, &mut new[..n], c, &other[..n])
            || !is_plain(p, &old[..n], c, &other[..n], &new[..n])
        {
            return false;
        }
    }
    true
}

#[test]
fn random_rows(rt: HostRuntime) -> Result<(), Fail> {
    for p in [2, 3, 5, 7, 11, 13, 101, 32003, 65521, GREATEST] {
        assert!(rt; is_plain_at_random(&field(p)?, 10000), "modulo {p}");
    }
    Ok(())
}
