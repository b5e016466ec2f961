//! The local order ds, the negative degree reverse lexicographical order
//! (Greuel and Pfister, A Singular Introduction to Commutative Algebra).

ghost use Rattle.std.specs.Prelude.{◌≡◌, length};
ghost use Rattle.local_order.specs.Order.{compare_ds};

use crate::mono::Mono;
use std::cmp::Ordering;

impl Mono {
    /// Which monomial is greater in the order ds: the one of lesser degree,
    /// and in one degree the one with the lesser exponent at the last place where they differ.
    pub fn cmp_ds(&self, other: &Mono) -> Ordering
        requires { length self.now ≡ length other.now }
        ensures { result ≡ compare_ds self.now other.now }
    {
        if self.total_degree != other.total_degree {
            return other.total_degree.cmp(&self.total_degree);
        }
        for i in (0..usize::from(self.n)).rev() {
            if self.exps[i] != other.exps[i] {
                return other.exps[i].cmp(&self.exps[i]);
            }
        }
        Ordering::Equal
    }
}
