//! The laws of reduced bases, staircases and leads.
//! Each is a call that does nothing, and whose contract is the law.

ghost use Rattle.std.specs.Prelude.{◌≡◌, ◌↔◌, ◌+◌, ◌-◌, ◌<◌, ◌≤◌, ℕ, suc, List, [], length, map, All, Contains, IsTrue, slice_get, Some};
ghost use Rattle.prime_field.specs.Prime.{IsPrime};
ghost use Rattle.local_order.specs.Mono.{degree, Divides};
ghost use Rattle.local_order.specs.Shape.{Shape, count};
ghost use Rattle.sparse_poly.specs.Shape.{shape_of};
ghost use Rattle.sparse_poly.specs.Poly.{Poly, IsIn};
ghost use Rattle.sparse_poly.specs.Ideal.{Problem, IsInIdeal, IsLeadOfIdeal, IsStaircase, Fits, IsFirstMissing, IsReducedBasis, IsMultipleOfLead};
ghost use Rattle.sparse_poly.specs.Span.{Agree};
ghost use Rattle.mono_rank.specs.Rank.{HasRank, mono_of_rank, fewer};
ghost use Rattle.mono_rank.specs.Cover.{IsCorner};
ghost use Rattle.staircase.specs.Stair.{IsStairOf, is_of_degree, IsLeastOfDegree, ShowLeads};
ghost use Rattle.sparse_poly.specs.Poly.{monomial};
ghost use Rattle.staircase.specs.Quotient.{IsMadeOf, HasRemainder};

/// A problem has at most one reduced standard basis, one staircase and one first missing monomial.
pub fn one_answer()
    ensures basis { (P : Problem) (G H : List Poly) → IsReducedBasis P G → IsReducedBasis P H → G ≡ H }
    ensures staircase { (P : Problem) (s t : List (List ℕ)) → IsStaircase P s → IsStaircase P t → s ≡ t }
    ensures missing { (P : Problem) (m k : List ℕ) → IsFirstMissing P m → IsFirstMissing P k → m ≡ k }
{}

/// The degree fits exactly where every monomial of degree d lies in the ideal modulo degree d + 1.
pub fn fits()
    ensures { (P : Problem) → IsPrime P.p
        → Fits P ↔ ((m : List ℕ) → length m ≡ P.n → degree m ≡ P.d → IsInIdeal P (monomial m)) }
{}

/// Where the degree fits, no monomial is the first missing one. The first missing one is not in the ideal.
pub fn fits_or_missing()
    ensures exclusive { (P : Problem) (m : List ℕ) → Fits P → ¬ IsFirstMissing P m }
    ensures outside { (P : Problem) (m : List ℕ) → IsPrime P.p → IsFirstMissing P m → ¬ IsInIdeal P (monomial m) }
{}

/// The degree fits exactly where each monomial of the staircase has a lesser degree.
pub fn fits_by_the_staircase()
    ensures low { (P : Problem) (s : List (List ℕ)) (m : List ℕ) → Fits P → IsStaircase P s → Contains s m → degree m < P.d }
    ensures fits { (P : Problem) (G : List Poly) (s : List (List ℕ)) → All (IsIn P.n) P.gens → IsReducedBasis P G → IsStaircase P s
        → ((m : List ℕ) → Contains s m → degree m < P.d)
        → Fits P }
{}

/// Up to degree d the multiples of a lead are leads, and so the divisors of a monomial of the staircase are in the staircase.
pub fn leads_are_closed()
    ensures multiples { (P : Problem) (a m : List ℕ) → All (IsIn P.n) P.gens → length m ≡ P.n → degree m ≤ P.d
        → Divides a m → IsLeadOfIdeal P a → IsLeadOfIdeal P m }
    ensures divisors { (P : Problem) (s : List (List ℕ)) (a m : List ℕ) → All (IsIn P.n) P.gens → IsStaircase P s
        → length a ≡ P.n → Divides a m → Contains s m → Contains s a }
{}

/// Up to degree d the leads of the ideal are the monomials that a lead of the reduced basis divides, and the staircase has
/// the others.
pub fn basis_shows_leads()
    ensures leads { (P : Problem) (G : List Poly) (m : List ℕ) → All (IsIn P.n) P.gens → IsReducedBasis P G
        → length m ≡ P.n → degree m ≤ P.d
        → IsLeadOfIdeal P m ↔ IsMultipleOfLead P G m }
    ensures staircase { (P : Problem) (G : List Poly) (s : List (List ℕ)) (m : List ℕ) → All (IsIn P.n) P.gens
        → IsReducedBasis P G → IsStaircase P s → length m ≡ P.n → degree m ≤ P.d
        → Contains s m ↔ (¬ IsMultipleOfLead P G m) }
{}

/// The monomials of the staircase are a basis of the polynomials modulo the ideal and degree d + 1: no combination of them
/// but 0 is in the ideal, and each polynomial is one of them and a member of the ideal.
pub fn staircase_is_a_basis()
    ensures independent { (P : Problem) (s : List (List ℕ)) (f : Poly) → IsPrime P.p → IsStaircase P s → IsIn P.n f
        → IsInIdeal P f → IsMadeOf P s f → Agree P f [] }
    ensures spanning { (P : Problem) (G : List Poly) (s : List (List ℕ)) (f : Poly) → IsPrime P.p → All (IsIn P.n) P.gens
        → IsReducedBasis P G → IsStaircase P s → IsIn P.n f
        → HasRemainder P s f }
{}

/// The last rank of the staircase of leads is their corner less one, and there is none exactly where the corner is 0.
pub fn corner_last()
    ensures none { (T : Shape) (leads ranks : List ℕ) (w : ℕ) → 1 ≤ T.variables → IsStairOf T leads ranks → IsCorner T leads w
        → (ranks ≡ []) ↔ (w ≡ 0) }
    ensures last { (T : Shape) (leads ranks : List ℕ) (w r : ℕ) → 1 ≤ T.variables → IsStairOf T leads ranks → IsCorner T leads w
        → slice_get ranks (length ranks - 1) ≡ Some r → r + 1 ≡ w }
{}

/// The ranks that count as those of a degree are the ranks of the monomials of that degree. They follow each other, from the number
/// of monomials of a lesser degree on.
pub fn ranks_of_a_degree()
    ensures monomials { (T : Shape) (m : List ℕ) (r e : ℕ) → HasRank T m r → IsTrue (is_of_degree T e r) ↔ (degree m ≡ e) }
    ensures run { (T : Shape) (r e : ℕ) → 1 ≤ T.variables → r < count T
        → (degree (mono_of_rank T r) ≡ e) ↔ ((fewer T.variables e ≤ r) × (r < fewer T.variables (suc e))) }
{}

/// Where the leads of the ideal are the multiples of some leads, the staircase of these is the ideal's, the degree fits exactly where
/// the monomials of all its ranks have a lesser degree than d, and else the least rank of degree d is that of the first missing monomial.
pub fn stair_of_leads()
    ensures staircase { (P : Problem) (leads ranks : List ℕ) → 1 ≤ P.n → ShowLeads P leads → IsStairOf (shape_of P) leads ranks
        → IsStaircase P (map (mono_of_rank (shape_of P)) ranks) }
    ensures fits { (P : Problem) (leads ranks : List ℕ) → 1 ≤ P.n → ShowLeads P leads → IsStairOf (shape_of P) leads ranks
        → ((r : ℕ) → Contains ranks r → degree (mono_of_rank (shape_of P) r) < P.d) ↔ Fits P }
    ensures missing { (P : Problem) (leads ranks : List ℕ) (r : ℕ) → 1 ≤ P.n → ShowLeads P leads → IsStairOf (shape_of P) leads ranks
        → IsLeastOfDegree (shape_of P) P.d ranks r → IsFirstMissing P (mono_of_rank (shape_of P) r) }
{}
