//! The laws of coefficients, of the ring of polynomials, of its canonical lists and of ideals modulo a degree.
//! Each is a call that does nothing, and whose contract is the law.

ghost use Rattle.std.specs.Prelude.{◌≡◌, ◌↔◌, ◌+◌, ◌-◌, ◌*◌, ◌%◌, ◌<◌, ◌≤◌, ℕ, List, [], ◌∷◌, ◌++◌, length, All, Contains, slice_index, slice_set};
ghost use Rattle.local_order.specs.Mono.{degree, mono_times, Divides};
ghost use Rattle.sparse_poly.specs.Poly.{Term, Poly, coef, cut, derivative, one, power, term_times, times, HasDegreeAtMost, HasResidues, IsCanonical, IsIn, IsSame, IsSorted};
ghost use Rattle.sparse_poly.specs.Canonical.{canonical};
ghost use Rattle.sparse_poly.specs.Ideal.{Problem, IsLead, IsInIdeal, HasCanonicalCofactors};
ghost use Rattle.sparse_poly.specs.Jacobian.{jacobian_ideal};
ghost use Rattle.sparse_poly.specs.Span.{Span, AreMultiples};

/// The coefficients of a sum are the sums of the coefficients.
pub fn coefficients_of_sums()
    ensures { (p : ℕ) (f g : Poly) (m : List ℕ) → coef p (f ++ g) m ≡ (coef p f m + coef p g m) % p }
{}

/// The coefficients of a product with one term are multiples of those of the polynomial,
/// moved to the multiples of the term's monomial.
pub fn coefficients_of_term_products()
    ensures moved { (p n c : ℕ) (a k : List ℕ) (f : Poly) → IsIn n f → length a ≡ n → length k ≡ n
        → coef p (term_times c a f) (mono_times a k) ≡ (c * coef p f k) % p }
    ensures elsewhere { (p n c : ℕ) (a m : List ℕ) (f : Poly) → IsIn n f → length a ≡ n → length m ≡ n → ¬ Divides a m
        → coef p (term_times c a f) m ≡ 0 }
{}

/// A cut keeps the coefficients up to the degree, and no other, and so has at most that degree.
pub fn coefficients_of_cuts()
    ensures low { (p d : ℕ) (f : Poly) (m : List ℕ) → degree m ≤ d → coef p (cut d f) m ≡ coef p f m }
    ensures high { (p d : ℕ) (f : Poly) (m : List ℕ) → d < degree m → coef p (cut d f) m ≡ 0 }
    ensures bounded { (d : ℕ) (f : Poly) → HasDegreeAtMost d (cut d f) }
{}

/// The derivative by a variable has at a monomial the coefficient at its product with the variable,
/// times the variable's exponent there.
pub fn coefficients_of_derivatives()
    ensures { (p n i : ℕ) (f : Poly) (k : List ℕ) → IsIn n f → length k ≡ n → i < n
        → let exponent = slice_index k i + 1 in
        coef p (derivative i f) k ≡ (exponent * coef p f (slice_set k i exponent)) % p }
{}

/// The jacobian ideal of a function modulo degree d + 1 sees the function up to degree d + 1 alone.
pub fn jacobian_ideals_see_low_terms()
    ensures { (p n d : ℕ) (f g : Poly) → 0 < p → IsIn n f → IsIn n g → IsSame p n (cut (d + 1) f) (cut (d + 1) g)
        → jacobian_ideal p n d f ≡ jacobian_ideal p n d g }
{}

/// Polynomials are a commutative ring: products are commutative, associative and distributive, 1 is neutral,
/// and each polynomial has an opposite.
pub fn polynomials_are_a_ring()
    ensures commutative { (p n : ℕ) (f g : Poly) → IsSame p n (times f g) (times g f) }
    ensures associative { (f g h : Poly) → times (times f g) h ≡ times f (times g h) }
    ensures distributive { (f g h : Poly) → times (f ++ g) h ≡ times f h ++ times g h }
    ensures neutral { (n : ℕ) (f : Poly) → IsIn n f → times (one n) f ≡ f }
    ensures opposite { (p n : ℕ) (f : Poly) → 0 < p → IsSame p n (f ++ term_times (p - 1) [] f) [] }
{}

/// Products of polynomials with equal coefficients have equal coefficients, and so has what is cut of them.
pub fn products_see_coefficients()
    ensures whole { (p n : ℕ) (f g h k : Poly) → IsIn n f → IsIn n g → IsIn n h → IsIn n k → IsSame p n f g → IsSame p n h k
        → IsSame p n (times f h) (times g k) }
    ensures cut { (p n d : ℕ) (f g h k : Poly) → IsIn n f → IsIn n g → IsIn n h → IsIn n k
        → IsSame p n (cut d f) (cut d g) → IsSame p n (cut d h) (cut d k) → IsSame p n (cut d (times f h)) (cut d (times g k)) }
{}

/// The power by a sum of exponents is the product of the powers.
pub fn powers_add_exponents()
    ensures { (n j k : ℕ) (f : Poly) → IsIn n f → power n f (j + k) ≡ times (power n f j) (power n f k) }
{}

/// Each polynomial has one canonical list: it is sorted, and its coefficients are residues.
pub fn canonical_lists()
    ensures sorted { (p n : ℕ) (f : Poly) → IsCanonical p n f ↔ (IsSorted n f × HasResidues p f) }
    ensures coefficients { (p : ℕ) (f : Poly) (m : List ℕ) → coef p (canonical p f) m ≡ coef p f m }
    ensures degree { (p d : ℕ) (f : Poly) → HasDegreeAtMost d f → HasDegreeAtMost d (canonical p f) }
    ensures form { (p n : ℕ) (f : Poly) → 0 < p → IsIn n f → IsCanonical p n (canonical p f) }
    ensures only { (p n : ℕ) (f g : Poly) → 0 < p → IsCanonical p n f → IsCanonical p n g → IsSame p n f g
        → f ≡ g }
    ensures lead { (P : Problem) (t : Term) (f : Poly) → IsCanonical P.p P.n (t ∷ f) → IsLead P (t ∷ f) t.mono }
{}

/// The polynomials of the ideal modulo a degree are an ideal, in which the generators lie.
pub fn ideal_is_closed()
    ensures generators { (P : Problem) (f : Poly) → All (IsIn P.n) P.gens → Contains P.gens f → IsInIdeal P f }
    ensures zero { (P : Problem) → IsInIdeal P [] }
    ensures sum { (P : Problem) (f g : Poly) → IsInIdeal P f → IsInIdeal P g → IsInIdeal P (f ++ g) }
    ensures product { (P : Problem) (q f : Poly) → All (IsIn P.n) P.gens → IsIn P.n q → IsIn P.n f
        → IsInIdeal P f → IsInIdeal P (times q f) }
    ensures alike { (P : Problem) (f g : Poly) → IsSame P.p P.n (cut P.d f) (cut P.d g)
        → IsInIdeal P f → IsInIdeal P g }
{}

/// The ideal modulo a degree is the span of the multiples of its generators by monomials.
pub fn ideal_is_a_span()
    ensures { (P : Problem) (rows : List Poly) (g : Poly) → All (IsIn P.n) P.gens → AreMultiples P rows
        → IsInIdeal P g ↔ Span P rows g }
{}

/// Cofactors may be taken canonical.
pub fn cofactors_may_be_canonical()
    ensures { (P : Problem) (g : Poly) → 0 < P.p → All (IsIn P.n) P.gens
        → IsInIdeal P g ↔ HasCanonicalCofactors P g }
{}
