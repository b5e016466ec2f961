//! The laws of the table and of what is computed modulo its primes.
//! Each is a call that does nothing, and whose contract is the law.

ghost use Rattle.std.specs.Prelude.{◌≡◌, ◌≢◌, ◌+◌, ◌-◌, ◌*◌, ◌%◌, ◌<◌, ◌≤◌, ℕ, true, false};
ghost use Rattle.prime_field.specs.Prime.{InTable, IsPrime};
ghost use Rattle.prime_field.specs.Inverse.{inverse};
ghost use Rattle.prime_field.specs.Sign.{sign_form};

/// Each member of the table is a prime.
pub fn table_is_prime()
    ensures { (p : ℕ) → InTable p → IsPrime p }
{}

/// The inverse of a residue other than 0 is the one residue whose product with it is 1.
pub fn inverse_is_inverse()
    ensures product { (p a : ℕ) → IsPrime p → a < p → a ≢ 0 → (a * inverse p a) % p ≡ 1 }
    ensures residue { (p a : ℕ) → IsPrime p → a < p → a ≢ 0 → inverse p a < p }
    ensures only { (p a b : ℕ) → IsPrime p → a < p → a ≢ 0 → b < p → (a * b) % p ≡ 1 → b ≡ inverse p a }
{}

/// The sign form stands for the residue, with the least size.
pub fn sign_form_is_least()
    ensures plus { (p a : ℕ) → (sign_form p a).0 ≡ false → (sign_form p a).1 ≡ a }
    ensures minus { (p a : ℕ) → a < p → (sign_form p a).0 ≡ true → a + (sign_form p a).1 ≡ p }
    ensures least { (p a : ℕ) → a < p → 2 * (sign_form p a).1 ≤ p }
{}
