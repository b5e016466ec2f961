//! How many monomials there are.

ghost use Rattle.std.specs.Prelude.{◌≡◌, ◌≤◌};
ghost use Rattle.local_order.specs.Limits.{max_degree, max_variables};
ghost use Rattle.local_order.specs.Count.{monomial_count as number_of_monomials};

/// The greatest degree up to which monomials are counted.
pub const MAX_DEGREE: u32 = 255;

/// The greatest number of monomials that a ring is cut to.
pub const MAX_MONOMIALS: u64 = 4096;

/// How many monomials in `n` variables have degree at most `d`.
pub fn monomial_count(n: u32, d: u32) -> u64
    requires few { n ≤ max_variables }
    requires low { d ≤ max_degree }
    ensures { result ≡ number_of_monomials n d }
{
    let mut count = 1;
    for k in 0..n {
        count = count * u64::from(d + k + 1) / u64::from(k + 1);
    }
    count
}
