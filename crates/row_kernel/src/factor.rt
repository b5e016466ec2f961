//! A factor modulo p, and its products with lanes of residues.

ghost use Rattle.std.specs.Prelude.{◌≡◌, ℕ, ◌+◌, ◌-◌, ◌*◌, ◌/◌, ◌%◌, ◌^◌, ◌<◌, ◌≤◌, length, slice_index};

use prime_field::Field;
use std::simd::prelude::*;

/// How many residues are changed at once.
pub(crate) const LANES: usize = 8;

/// A residue by which many others are multiplied, with its quotient.
///
/// The reduction is Barrett's for a factor that is known beforehand (Shoup's form): where `quotient` is floor(value * 2^32 / p), the product
/// `value * y` is at least `floor(quotient * y / 2^32) * p`, and less than twice p more: with e the remainder of `value * 2^32`, below p, the rest
/// times 2^32 is less than `p * 2^32 + e * y`, and `y < 2^32`. So a lane costs three products of 32 bits to 64, a shift and one subtraction that is
/// kept where it doesn't wrap, and only [`Factor::opposite`] divides. Montgomery's form would cost as much, and not take p = 2;
/// by the table's greatest prime, 2^31 - 1, twice p is still below 2^32, so that from there on 32 bits suffice.
#[derive(Clone, Copy, Drop)]
pub(crate) struct Factor {
    pub(crate) p: u32,
    pub(crate) value: u32,
    pub(crate) quotient: u32,
}

impl Factor {
    /// The factor by which to multiply a residue, and to add the product, where `c` times the residue is to be subtracted.
    pub(crate) fn opposite(field: &Field, c: u32) -> Factor
        requires { c < field.now }
        ensures prime { result.p ≡ field.now }
        ensures small { result.p < 2 ^ 31 }
        ensures value { result.value ≡ (field.now - c) % field.now }
        ensures residue { result.value < field.now }
        ensures quotient { result.quotient ≡ result.value * 2 ^ 32 / field.now }
    {
        let p = field.prime();
        let value = field.neg(c);
        let quotient = ((u64::from(value) << 32) / u64::from(p)) as u32;
        Factor { p, value, quotient }
    }

    /// The products of the factor with eight residues.
    pub(crate) fn times(self, lanes: u32x8) -> u32x8
        requires prime { self.p < 2 ^ 31 }
        requires factor { self.value < self.p }
        requires quotient { self.quotient ≡ self.value * 2 ^ 32 / self.p }
        requires full { length lanes ≡ 8 }
        ensures full { length result ≡ 8 }
        ensures value { (j : ℕ) → j < 8 → slice_index result j ≡ (self.value * slice_index lanes j) % self.p }
    {
        let wide = lanes.cast::<u64>();
        let quotients = (wide * u64x8::splat(self.quotient as u64)) >> u64x8::splat(32);
        let products = wide * u64x8::splat(self.value as u64);
        let rest = products - quotients * u64x8::splat(self.p as u64);
        let narrow = rest.cast::<u32>();
        reduced(narrow, self.p)
    }
}

/// The residues of eight numbers below twice p.
pub(crate) fn reduced(lanes: u32x8, p: u32) -> u32x8
    requires prime { p < 2 ^ 31 }
    requires full { length lanes ≡ 8 }
    requires small { (j : ℕ) → j < 8 → slice_index lanes j < 2 * p }
    ensures full { length result ≡ 8 }
    ensures value { (j : ℕ) → j < 8 → slice_index result j ≡ slice_index lanes j % p }
{
    // where p can't be subtracted the difference wraps, to a number that is greater
    lanes.simd_min(lanes - u32x8::splat(p))
}

/// The sums of eight pairs of residues.
pub(crate) fn sums(a: u32x8, b: u32x8, p: u32) -> u32x8
    requires prime { p < 2 ^ 31 }
    requires full_a { length a ≡ 8 }
    requires full_b { length b ≡ 8 }
    requires a_residues { (j : ℕ) → j < 8 → slice_index a j < p }
    requires b_residues { (j : ℕ) → j < 8 → slice_index b j < p }
    ensures full { length result ≡ 8 }
    ensures value { (j : ℕ) → j < 8 → slice_index result j ≡ (slice_index a j + slice_index b j) % p }
{
    reduced(a + b, p)
}
