//! Products, quotients and common multiples of monomials.

ghost use Rattle.std.specs.Prelude.{◌≡◌, ◌↔◌, ◌≤◌, length, All, IsSome, IfSome, IsTrue};
ghost use Rattle.local_order.specs.Mono.{mono_times, mono_quotient, mono_lcm, Divides, IsCoprime};

use crate::mono::{MAX_EXPONENT, MAX_VARIABLES, Mono, degree_of};

impl Mono {
    /// Whether `other` is a product with this monomial.
    pub fn divides(&self, other: &Mono) -> bool
        requires { length self.now ≡ length other.now }
        ensures { IsTrue result ↔ Divides self.now other.now }
    {
        // all eight are compared, with no way out: that is a few instructions, and what lies behind the last variable is 0 in both
        let mut is_divisor = true;
        for i in 0..MAX_VARIABLES {
            if self.exps[i] > other.exps[i] {
                is_divisor = false;
            }
        }
        is_divisor
    }

    /// Whether no variable occurs in both.
    pub fn coprime(&self, other: &Mono) -> bool
        requires { length self.now ≡ length other.now }
        ensures { IsTrue result ↔ IsCoprime self.now other.now }
    {
        self.exponents()
            .iter()
            .zip(other.exponents())
            .all(|(a, b)| *a == 0 || *b == 0)
    }

    /// The least common multiple.
    pub fn lcm(&self, other: &Mono) -> Mono
        requires { length self.now ≡ length other.now }
        ensures { result ≡ mono_lcm self.now other.now }
    {
        let mut exps = [0; MAX_VARIABLES];
        for i in 0..MAX_VARIABLES {
            exps[i] = self.exps[i].max(other.exps[i]);
        }
        Mono {
            exps,
            n: self.n,
            total_degree: degree_of(&exps),
        }
    }

    /// The product. There is none where an exponent of it would be above [`MAX_EXPONENT`].
    pub fn times(&self, other: &Mono) -> Option<Mono>
        requires { length self.now ≡ length other.now }
        ensures some { IsSome result ↔ All (λ e. e ≤ MAX_EXPONENT) (mono_times self.now other.now) }
        ensures value { IfSome result (λ m. m ≡ mono_times self.now other.now) }
    {
        let mut exps = [0; MAX_VARIABLES];
        let mut is_stored = true;
        for i in 0..MAX_VARIABLES {
            exps[i] = self.exps[i] + other.exps[i];
            if exps[i] > MAX_EXPONENT {
                is_stored = false;
            }
        }
        if !is_stored {
            return None;
        }
        Some(Mono {
            exps,
            n: self.n,
            total_degree: self.total_degree + other.total_degree,
        })
    }

    /// The quotient by `other`. There is none where `other` does not divide this monomial.
    pub fn quotient(&self, other: &Mono) -> Option<Mono>
        requires { length self.now ≡ length other.now }
        ensures some { IsSome result ↔ Divides other.now self.now }
        ensures value { IfSome result (λ m. m ≡ mono_quotient self.now other.now) }
    {
        let mut exps = [0; MAX_VARIABLES];
        for i in 0..MAX_VARIABLES {
            exps[i] = self.exps[i].checked_sub(other.exps[i])?;
        }
        Some(Mono {
            exps,
            n: self.n,
            total_degree: self.total_degree - other.total_degree,
        })
    }
}
