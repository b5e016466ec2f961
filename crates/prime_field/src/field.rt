//! The numbers modulo a prime.

ghost use Rattle.std.specs.Prelude.{◌≡◌, ◌≢◌, ◌↔◌, ℕ, ◌+◌, ◌-◌, ◌*◌, ◌/◌, ◌%◌, ◌<◌, ◌≤◌, IsSome, IfSome};
ghost use Rattle.prime_field.specs.Prime.{InTable};
ghost use Rattle.prime_field.specs.Inverse.{inverse};
ghost use Rattle.prime_field.specs.Decimal.{AreDigits, value_of};
ghost use Rattle.prime_field.specs.Sign.{sign_form};

use std::marker::Model;

/// The characteristics that are offered.
const TABLE: [u32; 10] = [2, 3, 5, 7, 11, 13, 101, 32003, 65521, 2147483647];

/// The field Z/p of the numbers modulo a prime p of the table. A contract sees the prime.
/// The elements are given as residues, the numbers below p.
#[derive(Clone, Copy, Debug, PartialEq, Eq)]
pub struct Field {
    p: u32,
}

impl Model for Field {
    ghost Value = { ℕ };

    ghost view = { λ f. f.p };

    ghost invariant = { λ f. InTable f.p };

    ghost inverse = { λ p. record { p = p } };
}

impl Field {
    /// The field of characteristic `p`, where the table has `p`.
    pub fn of(p: u32) -> Option<Field>
        ensures some { IsSome result ↔ InTable p }
        ensures value { IfSome result (λ f. f ≡ p) }
    {
        if TABLE.contains(&p) {
            Some(Field { p })
        } else {
            None
        }
    }

    /// The characteristic.
    pub fn prime(&self) -> u32
        ensures value { result ≡ self.now }
        ensures offered { InTable self.now }
    {
        self.p
    }

    /// The sum of two residues.
    pub fn add(&self, a: u32, b: u32) -> u32
        requires a_residue { a < self.now }
        requires b_residue { b < self.now }
        ensures value { result ≡ (a + b) % self.now }
        ensures residue { result < self.now }
    {
        let p = self.p;
        let sum = a + b;
        if sum >= p { sum - p } else { sum }
    }

    /// The product of two residues.
    pub fn mul(&self, a: u32, b: u32) -> u32
        requires a_residue { a < self.now }
        requires b_residue { b < self.now }
        ensures value { result ≡ (a * b) % self.now }
        ensures residue { result < self.now }
    {
        ((u64::from(a) * u64::from(b)) % u64::from(self.p)) as u32
    }

    /// The sum of a residue and the product of two others, by one division.
    pub fn add_product(&self, a: u32, b: u32, c: u32) -> u32
        requires a_residue { a < self.now }
        requires b_residue { b < self.now }
        requires c_residue { c < self.now }
        ensures value { result ≡ (a + b * c) % self.now }
        ensures residue { result < self.now }
    {
        ((u64::from(a) + u64::from(b) * u64::from(c)) % u64::from(self.p)) as u32
    }

    /// The residue whose sum with `a` is 0.
    pub fn neg(&self, a: u32) -> u32
        requires { a < self.now }
        ensures value { result ≡ (self.now - a) % self.now }
        ensures residue { result < self.now }
        ensures opposite { (a + result) % self.now ≡ 0 }
    {
        if a == 0 { 0 } else { self.p - a }
    }

    /// The difference of two residues.
    pub fn sub(&self, a: u32, b: u32) -> u32
        requires a_residue { a < self.now }
        requires b_residue { b < self.now }
        ensures value { result ≡ (a + (self.now - b)) % self.now }
        ensures residue { result < self.now }
    {
        self.add(a, self.neg(b))
    }

    /// The residue whose product with `a` is 1, by Euclid's algorithm.
    pub fn inv(&self, a: u32) -> u32
        requires residue { a < self.now }
        requires nonzero { a ≢ 0 }
        ensures value { (a * result) % self.now ≡ 1 }
        ensures residue { result < self.now }
        ensures inverse { result ≡ inverse self.now a }
    {
        let mut high = self.p;
        let mut low = a;
        let mut high_factor = 0;
        let mut low_factor = 1;
        while low != 0 {
            let quotient = high / low;
            let rest = high % low;
            let factor = self.sub(high_factor, self.mul(quotient % self.p, low_factor));
            high = low;
            low = rest;
            high_factor = low_factor;
            low_factor = factor;
        }
        high_factor
    }

    /// The residue of a decimal numeral of any length, and 0 where there is no digit.
    pub fn from_decimal(&self, digits: &[u8]) -> u32
        requires { AreDigits digits.now }
        ensures value { result ≡ value_of digits.now % self.now }
        ensures residue { result < self.now }
    {
        let p = u64::from(self.p);
        let mut value = 0;
        for digit in digits {
            value = (10 * value + u64::from(*digit - b'0')) % p;
        }
        value as u32
    }

    /// The sign form of a residue: whether a minus stands in front, and the size behind it.
    /// The size is at most half of p.
    pub fn signed(&self, a: u32) -> (bool, u32)
        requires { a < self.now }
        ensures { result ≡ sign_form self.now a }
    {
        if a <= self.p / 2 {
            (false, a)
        } else {
            (true, self.p - a)
        }
    }
}
