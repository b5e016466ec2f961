//! The monomials that the ring's calls need.

ghost use Rattle.std.specs.Prelude.{◌≡◌, ◌<◌, ◌≤◌, slice_set};
ghost use Rattle.local_order.specs.Limits.{max_variables};
ghost use Rattle.local_order.specs.Mono.{mono_one};

use local_order::Mono;

/// The monomial 1 in `n` variables.
pub(crate) fn constant(n: u32) -> Mono
    requires some { 1 ≤ n }
    requires few { n ≤ max_variables }
    ensures { result ≡ mono_one n }
{
    let exps = [0; 8];
    let Some(mono) = Mono::new(&exps[..n as usize]) else {
        unreachable!()
    };
    mono
}

/// The monomial that is variable `i` of `n`.
pub(crate) fn variable(n: u32, i: u32) -> Mono
    requires few { n ≤ max_variables }
    requires within { i < n }
    ensures { result ≡ slice_set (mono_one n) i 1 }
{
    let mut exps = [0; 8];
    exps[i as usize] = 1;
    let Some(mono) = Mono::new(&exps[..n as usize]) else {
        unreachable!()
    };
    mono
}
