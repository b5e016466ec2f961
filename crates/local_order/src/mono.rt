//! A monomial, by its exponents.

ghost use Rattle.std.specs.Prelude.{◌≡◌, ℕ, List, ◌++◌, ◌-◌, ◌<◌, ◌≤◌, ◌↔◌, ◌^◌, length, sum, take, replicate, All, IsSome, IfSome, slice_index};
ghost use Rattle.local_order.specs.Mono.{degree, IsWithinLimits};
ghost use Rattle.local_order.specs.Stored.{IsStored, front_and_zeros, length_front};

use std::marker::Model;

/// The greatest exponent.
pub const MAX_EXPONENT: u16 = 1000;

/// The greatest number of variables.
pub const MAX_VARIABLES: usize = 8;

/// A monomial in one to [`MAX_VARIABLES`] variables, with each exponent at most [`MAX_EXPONENT`].
/// A contract sees the list of its exponents, one for each variable.
#[derive(Clone, Copy, Debug)]
pub struct Mono {
    pub(crate) exps: [u16; MAX_VARIABLES],
    pub(crate) n: u16,
    pub(crate) total_degree: u16,
}

impl Model for Mono {
    ghost Value = { List ℕ };

    ghost view = { λ m. take m.n m.exps };

    ghost invariant = { λ m. IsStored m.exps m.n m.total_degree };

    ghost inverse = { λ v. record { exps = v ++ replicate (8 - length v) 0; n = length v; total_degree = degree v } };

    ghost inverse_ok = { λ m h i. record { exps = front_and_zeros m.exps m.n m.total_degree h i; n = length_front m.exps m.n m.total_degree h i; total_degree = h.total_is i } };
}

impl Mono {
    /// The monomial with these exponents, one for each variable.
    /// There is none without an exponent, with more than [`MAX_VARIABLES`], or with one above [`MAX_EXPONENT`].
    pub fn new(exps: &[u16]) -> Option<Mono>
        ensures some { IsSome result ↔ IsWithinLimits exps.now }
        ensures value { IfSome result (λ m. m ≡ exps.now) }
    {
        if exps.is_empty() || exps.len() > MAX_VARIABLES || exps.iter().any(|e| *e > MAX_EXPONENT) {
            return None;
        }
        let mut all = [0; MAX_VARIABLES];
        all[..exps.len()].copy_from_slice(exps);
        Some(Mono {
            exps: all,
            n: exps.len() as u16,
            total_degree: degree_of(exps),
        })
    }

    /// The number of variables.
    pub fn n(&self) -> u32
        ensures value { result ≡ length self.now }
        ensures valid { IsWithinLimits self.now }
    {
        u32::from(self.n)
    }

    /// The sum of the exponents.
    pub fn degree(&self) -> u32
        ensures value { result ≡ degree self.now }
        ensures small { result ≤ 8000 }
    {
        u32::from(self.total_degree)
    }

    /// The exponent of variable `i`, the first being 0.
    pub fn exp(&self, i: u32) -> u16
        requires { i < length self.now }
        ensures value { result ≡ slice_index self.now i }
        ensures small { result ≤ MAX_EXPONENT }
    {
        self.exps[i as usize]
    }

    /// The exponents, one for each variable.
    pub(crate) fn exponents(&self) -> &[u16]
        ensures { result.now ≡ self.now }
    {
        &self.exps[..usize::from(self.n)]
    }
}

/// The sum of exponents.
pub(crate) fn degree_of(exps: &[u16]) -> u16
    requires { sum exps.now < 2 ^ 16 }
    ensures { result ≡ sum exps.now }
{
    exps.iter().sum()
}
