//! A multiple of a row subtracted from another, lane by lane.

ghost use Rattle.std.specs.Prelude.{◌≡◌, ℕ, ◌+◌, ◌-◌, ◌*◌, ◌%◌, ◌<◌, ◌≤◌, length, All, slice_index};
ghost use Rattle.row_kernel.specs.Difference.{IsDifference};

use crate::factor::{Factor, LANES, sums};
use prime_field::Field;
use std::simd::prelude::*;

/// Subtracts `c` times the residues of another row, place by place: eight at once, and those behind the last eight one by one.
/// It is the row that the plain loop gives. It takes no memory.
pub fn update(field: &Field, out: &mut [u32], c: u32, other: &[u32])
    requires equal { length out.old ≡ length other.now }
    requires residues { All (λ x. x < field.now) out.old }
    requires other { All (λ x. x < field.now) other.now }
    requires residue { c < field.now }
    ensures { IsDifference field.now c out.old other.now out.new }
{
    let factor = Factor::opposite(field, c);
    let mut k = 0;
    while out.len() - k >= LANES {
        let products = factor.times(u32x8::from_slice(&other[k..]));
        let lanes = sums(u32x8::from_slice(&out[k..]), products, factor.p);
        lanes.copy_to_slice(&mut out[k..]);
        k += LANES;
    }
    while k < out.len() {
        out[k] = field.add_product(out[k], factor.value, other[k]);
        k += 1;
    }
}
