//! Each call on residues that were worked out by hand.

ghost use Rattle.std.specs.Prelude.{◌≡◌, IsTrue};
ghost use Rattle.prime_field.specs.Decimal.{AreDigits};

use crate::build::field;
use prime_field::Field;
use std::test::Fail;

const GREATEST: u32 = 2147483647;

fn are_digits(bytes: &[u8]) -> bool
    ensures { IsTrue result → AreDigits bytes.now }
{
    bytes.iter().all(|b| *b >= b'0' && *b <= b'9')
}

#[test]
fn table(rt: HostRuntime) {
    for p in [2, 3, 5, 7, 11, 13, 101, 32003, 65521, GREATEST] {
        assert!(rt;
            Field::of(p).map(|f| f.prime()) == Some(p),
            "{p} is not offered"
        );
    }
    for p in [0, 1, 4, 9, 17, 32004, 65522, GREATEST - 1] {
        assert!(rt; Field::of(p).is_none(), "{p} is offered");
    }
}

/// Sums, differences, products and opposites modulo 7.
fn are_modulo_seven(seven: &Field) -> bool
    requires { seven.now ≡ 7 }
{
    seven.add(3, 4) == 0
        && seven.add(5, 6) == 4
        && seven.sub(2, 5) == 4
        && seven.mul(3, 5) == 1
        && seven.neg(0) == 0
        && seven.neg(3) == 4
}

/// An inverse and two sign forms modulo 32003.
fn are_modulo_the_usual(usual: &Field) -> bool
    requires { usual.now ≡ 32003 }
{
    usual.inv(2) == 16002
        && usual.signed(16001) == (false, 16001)
        && usual.signed(16004) == (true, 15999)
}

/// Inverses, a sum and a product modulo the greatest prime.
fn are_modulo_the_greatest(large: &Field) -> bool
    requires { large.now ≡ 2147483647 }
{
    let last = GREATEST - 1;
    large.inv(65536) == 32768
        && large.inv(last) == last
        && large.add(last, last) == last - 1
        && large.mul(last, last) == 1
}

#[test]
fn residues(rt: HostRuntime) -> Result<(), Fail> {
    assert!(rt; are_modulo_seven(&field(7)?));
    assert!(rt; are_modulo_the_usual(&field(32003)?));
    assert!(rt; are_modulo_the_greatest(&field(GREATEST)?));
    Ok(())
}

/// The residue of a numeral.
fn residue(p: u32, numeral: &[u8]) -> Result<u32, Fail> {
    if !are_digits(numeral) {
        return Err("no numeral")?;
    }
    Ok(field(p)?.from_decimal(numeral))
}

#[test]
fn numerals(rt: HostRuntime) -> Result<(), Fail> {
    let nines = [b'9'; 1000];
    let residues = [
        residue(7, b"100000000000000000000")?,
        residue(7, b"")?,
        residue(7, &nines)?,
        residue(32003, &nines)?,
    ];
    assert!(rt; residues == [2, 0, 3, 24457]);
    Ok(())
}
