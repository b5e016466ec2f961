//! Each call on monomials that were worked out by hand.

ghost use Rattle.std.specs.Prelude.{◌≡◌, length, IfOk};

use crate::build::FALLING;
use local_order::Mono;
use std::test::Fail;

fn monomial(exps: &[u16]) -> Result<Mono, Fail>
    ensures { IfOk result (λ m. m ≡ exps.now) }
{
    Ok(Mono::new(exps).ok_or("no monomial")?)
}

/// The exponents of the first three variables, or zeros where there is no monomial.
fn exponents(monomial: Option<Mono>) -> [u16; 3] {
    let mut exps = [0; 3];
    if let Some(m) = monomial {
        for i in 0..m.n().min(3) {
            exps[i as usize] = m.exp(i);
        }
    }
    exps
}

#[test]
fn monomials_of_degree_four_fall(rt: HostRuntime) -> Result<(), Fail> {
    for (i, first) in FALLING.iter().enumerate() {
        let a = monomial(&first[..])?;
        for (j, second) in FALLING.iter().enumerate() {
            let b = monomial(&second[..])?;
            assert!(rt; a.cmp_ds(&b) == j.cmp(&i), "at {i} and {j}");
        }
    }
    Ok(())
}

#[test]
fn limits(rt: HostRuntime) {
    let some = [1000; 9];
    let mut made = [false; 10];
    for n in 0..10 {
        made[n] = Mono::new(&some[..n]).is_some();
    }
    assert!(rt; made == [false, true, true, true, true, true, true, true, true, false]);
    assert!(rt; Mono::new(&[0, 1001, 0]).is_none());
    assert!(rt; std::mem::size_of::<Mono>() == 20);
}

/// Whether x^2*y, x*z^3, x and y^5 divide each other and are coprime as they should.
fn are_divisors(a: &Mono, b: &Mono, x: &Mono, y: &Mono) -> bool
    requires first { length a.now ≡ 3 }
    requires second { length b.now ≡ 3 }
    requires third { length x.now ≡ 3 }
    requires fourth { length y.now ≡ 3 }
{
    x.divides(a)
        && x.divides(b)
        && !a.divides(x)
        && !a.coprime(b)
        && !x.coprime(b)
        && y.coprime(b)
        && a.quotient(b).is_none()
        && exponents(a.quotient(x)) == [1, 1, 0]
}

#[test]
fn divisors(rt: HostRuntime) -> Result<(), Fail> {
    let a = monomial(&[2, 1, 0])?;
    let b = monomial(&[1, 0, 3])?;
    let x = monomial(&[1, 0, 0])?;
    let y = monomial(&[0, 5, 0])?;
    assert!(rt; are_divisors(&a, &b, &x, &y));
    Ok(())
}

/// Whether x^2*y, x and x^999*z^1000 have the products and the least common multiple that they should.
fn are_products(a: &Mono, x: &Mono, high: &Mono) -> bool
    requires first { length a.now ≡ 3 }
    requires second { length x.now ≡ 3 }
    requires third { length high.now ≡ 3 }
{
    exponents(a.times(x)) == [3, 1, 0]
        && exponents(Some(a.lcm(high))) == [999, 1, 1000]
        && exponents(high.times(x)) == [1000, 0, 1000]
        && high.times(a).is_none()
        && a.n() == 3
        && a.degree() == 3
        && a.exp(0) == 2
}

#[test]
fn products(rt: HostRuntime) -> Result<(), Fail> {
    let a = monomial(&[2, 1, 0])?;
    let x = monomial(&[1, 0, 0])?;
    let high = monomial(&[999, 0, 1000])?;
    assert!(rt; are_products(&a, &x, &high));
    Ok(())
}
