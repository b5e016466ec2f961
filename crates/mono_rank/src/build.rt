//! What a table is made of: the monomials in falling order, and the numbers of monomials.

ghost use Rattle.std.specs.Prelude.{◌≡◌, ◌+◌, ◌*◌, ◌<◌, ◌≤◌, length, IfOk};
ghost use Rattle.local_order.specs.Limits.{max_degree, max_exponent, max_variables};
ghost use Rattle.local_order.specs.Mono.{degree, IsWithinLimits};
ghost use Rattle.local_order.specs.Count.{monomial_count as number_of_monomials};
ghost use Rattle.mono_rank.specs.Stored.{HasCounts, ListsRanks};
ghost use Rattle.mono_rank.specs.Next.{IsNext};

use local_order::Mono;
use std::alloc::{AllocError, Global};

/// The numbers of monomials below each degree up to `d` + 1, in one to eight variables.
pub(crate) fn counts_below(alloc: Global, d: u32) -> Result<Vec<u64>, AllocError>
    requires { d ≤ max_degree }
    ensures rows { IfOk result (λ v. length v.items ≡ 8 * (d + 2)) }
    ensures counts { IfOk result (λ v. HasCounts v.items) }
{
    let mut counts = vec![in alloc; 0; 8]?;
    for p in 0..=d {
        let mut count = 1;
        for i in 0..8 {
            count += counts[(8 * p + i) as usize];
            counts.push(count)?;
        }
    }
    Ok(counts)
}

/// The monomials in `n` variables of degree at most `d`, the greatest first.
pub(crate) fn falling(alloc: Global, n: u32, d: u32, count: u32) -> Result<Vec<Mono>, AllocError>
    requires some { 1 ≤ n }
    requires few { n ≤ max_variables }
    requires low { d ≤ max_degree }
    requires count { count ≡ number_of_monomials n d }
    ensures { IfOk result (λ v. ListsRanks (record { variables = n; degree = d }) v.items) }
{
    let mut all = Vec::new(alloc);
    let mut exps = vec![in alloc; 0; n as usize]?;
    for _ in 0..count {
        all.push(monomial(&exps))?;
        go_on(&mut exps);
    }
    Ok(all)
}

/// The monomial with these exponents.
fn monomial(exps: &[u16]) -> Mono
    requires { IsWithinLimits exps.now }
    ensures { result ≡ exps.now }
{
    Mono::new(exps).unwrap()
}

/// Goes on to the next monomial in the order ds: the first exponent that isn't 0 passes one on to its right neighbour,
/// and what is left of it goes to the front. The last monomial of a degree is followed by the first of the next degree.
fn go_on(exps: &mut [u16])
    requires some { 1 ≤ length exps.old }
    requires small { degree exps.old ≤ max_exponent }
    ensures { IsNext exps.old exps.new }
{
    let last = exps.len() - 1;
    let mut i = 0;
    while i < last && exps[i] == 0 {
        i += 1;
    }
    let first = exps[i];
    exps[i] = 0;
    if i < last {
        exps[i + 1] += 1;
        exps[0] = first - 1;
    } else {
        exps[0] = first + 1;
    }
}
