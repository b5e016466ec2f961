//! The rank of a monomial, from numbers of monomials.

ghost use Rattle.std.specs.Prelude.{◌≡◌, ◌+◌, ◌*◌, ◌<◌, ◌≤◌, length};
ghost use Rattle.local_order.specs.Limits.{max_degree, max_monomials};
ghost use Rattle.local_order.specs.Mono.{degree};
ghost use Rattle.local_order.specs.Count.{monomial_count};
ghost use Rattle.mono_rank.specs.Rank.{rank_of};
ghost use Rattle.mono_rank.specs.Stored.{HasCounts};

use local_order::Mono;

/// The rank of a monomial of degree at most `d`, from the numbers of monomials below each degree up to `d` + 1.
///
/// It is the number of all monomials of at most the degree of `m`, less `m` itself and the lesser ones of its degree.
/// A lesser one agrees with `m` behind some variable and has more of that variable, so it has less degree than `m`
/// in the `i` variables before it, and is fixed by their exponents: as many are lesser there as monomials in `i` variables
/// have a degree below that of `m` in them.
pub(crate) fn place_of(counts: &[u64], d: u32, m: &Mono) -> u32
    requires low { degree m.now ≤ d }
    requires bound { d ≤ max_degree }
    requires small { monomial_count (length m.now) d ≤ max_monomials }
    requires rows { length counts.now ≡ 8 * (d + 2) }
    requires counts { HasCounts counts.now }
    ensures { result ≡ rank_of (record { variables = length m.now; degree = d }) m.now }
{
    let n = m.n();
    let mut before = u32::from(m.exp(0));
    let mut rest = 1;
    for i in 1..n {
        rest += counts[(8 * before + i - 1) as usize];
        before += u32::from(m.exp(i));
    }
    (counts[(8 * (before + 1) + n - 1) as usize] - rest) as u32
}
