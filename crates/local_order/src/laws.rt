//! The laws of the order ds, of division and of the tests that compute both.
//! Each is a call that does nothing, and whose contract is the law.

ghost use Rattle.std.specs.Prelude.{◌≡◌, ◌≢◌, ◌↔◌, ◌+◌, ◌*◌, ◌⊎◌, ℕ, List, ◌≤◌, length, AllPairs, Contains, IsTrue};
ghost use Rattle.std.specs.declared.cmp.Ordering.TheVariants.{Less, Equal, Greater};
ghost use Rattle.local_order.specs.Mono.{degree, mono_one, mono_times, mono_quotient, mono_lcm, Divides, IsCoprime, same, divides, coprime};
ghost use Rattle.local_order.specs.Order.{IsAbove, above, compare_ds};
ghost use Rattle.local_order.specs.Count.{count_by_products, monomial_count, monomials};

/// The order ds is a total order on the monomials in n variables.
pub fn total_order()
    ensures transitive { (a b c : List ℕ) → IsAbove a b → IsAbove b c → IsAbove a c }
    ensures irreflexive { (a : List ℕ) → ¬ IsAbove a a }
    ensures total { (a b : List ℕ) → length a ≡ length b → (a ≡ b) ⊎ (IsAbove a b ⊎ IsAbove b a) }
{}

/// The greater of two monomials stays the greater under a product with a third.
pub fn products_keep_the_order()
    ensures { (a b c : List ℕ) → length c ≡ length a → length c ≡ length b → IsAbove a b
        → IsAbove (mono_times a c) (mono_times b c) }
{}

/// The order ds is local: 1 is above each other monomial.
pub fn one_is_greatest()
    ensures { (n : ℕ) (a : List ℕ) → length a ≡ n → a ≢ mono_one n → IsAbove (mono_one n) a }
{}

/// A divisor is the monomial itself or above it.
pub fn divisor_is_not_less()
    ensures { (a b : List ℕ) → length a ≡ length b → Divides a b → (a ≡ b) ⊎ IsAbove a b }
{}

/// The least common multiple is a multiple of both, and divides each other one.
pub fn lcm_is_least()
    ensures first { (a b : List ℕ) → length a ≡ length b → Divides a (mono_lcm a b) }
    ensures second { (a b : List ℕ) → length a ≡ length b → Divides b (mono_lcm a b) }
    ensures least { (a b m : List ℕ) → length a ≡ length b → length m ≡ length b → Divides a m → Divides b m
        → Divides (mono_lcm a b) m }
{}

/// A monomial is the product of a divisor and the quotient by it.
pub fn quotient_gives_back()
    ensures { (a b : List ℕ) → length a ≡ length b → Divides b a → mono_times b (mono_quotient a b) ≡ a }
{}

/// The tests compute the relations.
pub fn tests_decide()
    ensures same { (a b : List ℕ) → IsTrue (same a b) ↔ (a ≡ b) }
    ensures above { (a b : List ℕ) → IsTrue (above a b) ↔ IsAbove a b }
    ensures divides { (a b : List ℕ) → length a ≡ length b → IsTrue (divides a b) ↔ Divides a b }
    ensures coprime { (a b : List ℕ) → length a ≡ length b → IsTrue (coprime a b) ↔ IsCoprime a b }
{}

/// The comparison tells which of two monomials is above.
pub fn comparison_tells()
    ensures greater { (a b : List ℕ) → length a ≡ length b → (compare_ds a b ≡ Greater) ↔ IsAbove a b }
    ensures equal { (a b : List ℕ) → length a ≡ length b → (compare_ds a b ≡ Equal) ↔ (a ≡ b) }
    ensures less { (a b : List ℕ) → length a ≡ length b → (compare_ds a b ≡ Less) ↔ IsAbove b a }
{}

/// The number of monomials is computed by products.
pub fn count_is_quick()
    ensures { (n d : ℕ) → count_by_products n d ≡ monomial_count n d }
{}

/// The number of monomials is the length of a list that has each monomial of bounded degree once.
pub fn monomials_are_counted()
    ensures members { (n d : ℕ) (m : List ℕ) → Contains (monomials n d) m ↔ ((length m ≡ n) × (degree m ≤ d)) }
    ensures once { (n d : ℕ) → AllPairs (λ a b. a ≢ b) (monomials n d) }
    ensures number { (n d : ℕ) → length (monomials n d) ≡ monomial_count n d }
{}
