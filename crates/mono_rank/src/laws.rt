//! The laws of ranks. Each is a call that does nothing, and whose contract is the law.

ghost use Rattle.std.specs.Prelude.{◌≡◌, ◌↔◌, ◌+◌, ◌*◌, ◌%◌, ◌<◌, ◌≤◌, ℕ, Bool, List, Contains, Some, length, IsTrue};
ghost use Rattle.local_order.specs.Mono.{degree, mono_times, Divides};
ghost use Rattle.local_order.specs.Order.{IsAbove};
ghost use Rattle.local_order.specs.Count.{monomial_count};
ghost use Rattle.local_order.specs.Shape.{Shape, count};
ghost use Rattle.mono_rank.specs.Rank.{rank_of, HasRank, fewer, mono_at, ListsMonomials};
ghost use Rattle.mono_rank.specs.Cover.{IsCorner, corner_of_leads};
ghost use Rattle.mono_rank.specs.Laws.{IsDegreeOrder, Numbering, IsNumbering, numbering, ranks_of};
ghost use Rattle.rank_algebra.specs.Ranks.{IsRanks};

/// Ranks turn the order round: the greater monomial has the lesser rank.
pub fn rank_turns_the_order()
    ensures { (T : Shape) (a b : List ℕ) → length a ≡ T.variables → degree a ≤ T.degree → length b ≡ T.variables → degree b ≤ T.degree
        → IsAbove a b ↔ (rank_of T a < rank_of T b) }
{}

/// Ranks are the places in the list of the monomials in falling order.
pub fn rank_is_the_numbering()
    ensures { (T : Shape) (s : List (List ℕ)) → 1 ≤ T.variables → ListsMonomials T s
        → (r : ℕ) → r < length s → rank_of T (mono_at s r) ≡ r }
{}

/// The ranks are the numbers below the number of monomials, and each is the rank of one monomial.
pub fn ranks_are_all_numbers()
    ensures below { (T : Shape) (m : List ℕ) (r : ℕ) → HasRank T m r → r < count T }
    ensures one { (T : Shape) (a b : List ℕ) (r : ℕ) → HasRank T a r → HasRank T b r → a ≡ b }
    ensures some { (T : Shape) (r : ℕ) → 1 ≤ T.variables → r < count T → (m : List ℕ) × HasRank T m r }
{}

/// The ranks of one degree follow each other: from the number of monomials of lesser degree on.
pub fn degrees_are_runs_of_ranks()
    ensures from { (T : Shape) (m : List ℕ) (r : ℕ) → 1 ≤ T.variables → HasRank T m r → fewer T.variables (degree m) ≤ r }
    ensures below { (T : Shape) (m : List ℕ) (r : ℕ) → 1 ≤ T.variables → HasRank T m r → r < monomial_count T.variables (degree m) }
{}

/// The rank doesn't depend on the bound of the degrees.
pub fn tables_agree()
    ensures { (T : Shape) (e : ℕ) (m : List ℕ) (r : ℕ) → 1 ≤ T.variables → HasRank T m r → degree m ≤ e → HasRank (record T { degree = e }) m r }
{}

/// The order ds goes by degree first, and the ranks of a table number the monomials by it.
pub fn ranks_number_the_monomials()
    ensures order { (n : ℕ) → IsDegreeOrder n IsAbove }
    ensures ranks { (T : Shape) → 1 ≤ T.variables → IsNumbering T.variables T.degree IsAbove (numbering T) }
{}

/// Numbers of monomials by any order that goes by degree first have the laws of products, quotients and least common multiples.
/// The order is given by a test, since a clause can't range over relations. The order ds is one of them, and ranks are numbers by it.
pub fn ranks_compute()
    ensures any_order { (n d p : ℕ) (inv : ℕ → ℕ) (above : List ℕ → List ℕ → Bool) (O : Numbering) → IsDegreeOrder n (λ a b. IsTrue (above a b))
        → IsNumbering n d (λ a b. IsTrue (above a b)) O → 0 < p → ((c : ℕ) → (c % p ≡ 0 → ⊥) → (inv c * c) % p ≡ 1 % p) → IsRanks (ranks_of p inv d O) }
    ensures ds { (T : Shape) (p : ℕ) (inv : ℕ → ℕ) → 1 ≤ T.variables → 0 < p → ((c : ℕ) → (c % p ≡ 0 → ⊥) → (inv c * c) % p ≡ 1 % p)
        → IsRanks (ranks_of p inv T.degree (numbering T)) }
{}

/// What a table answers is what these laws speak of.
pub fn products_are_by_rank()
    ensures inside { (T : Shape) (p : ℕ) (inv : ℕ → ℕ) (x y : List ℕ) (a b r : ℕ) → 1 ≤ T.variables → HasRank T x a → HasRank T y b
        → HasRank T (mono_times x y) r ↔ ((ranks_of p inv T.degree (numbering T)).times a b ≡ r) × (r < count T) }
    ensures outside { (T : Shape) (p : ℕ) (inv : ℕ → ℕ) (x y : List ℕ) (a b : ℕ) → 1 ≤ T.variables → HasRank T x a → HasRank T y b
        → (T.degree < degree (mono_times x y)) ↔ ((ranks_of p inv T.degree (numbering T)).times a b ≡ count T) }
    ensures quotient { (T : Shape) (p : ℕ) (inv : ℕ → ℕ) (x y : List ℕ) (a b : ℕ) → 1 ≤ T.variables → HasRank T x a → HasRank T y b
        → Divides x y ↔ ((s : ℕ) × ((ranks_of p inv T.degree (numbering T)).quotient b a ≡ Some s)) }
{}

/// The corner of leads as a number is their corner, there is no other, and it never rises as leads are added.
pub fn leads_have_one_corner()
    ensures corner { (T : Shape) (leads : List ℕ) → 1 ≤ T.variables → IsCorner T leads (corner_of_leads T leads) }
    ensures one { (T : Shape) (leads : List ℕ) (v w : ℕ) → IsCorner T leads v → IsCorner T leads w → v ≡ w }
    ensures never_rises { (T : Shape) (leads more : List ℕ) → 1 ≤ T.variables → ((l : ℕ) → Contains leads l → Contains more l)
        → corner_of_leads T more ≤ corner_of_leads T leads }
{}
