//! The laws of plain division and of the corner. Each is a call that does nothing, and whose contract is the law.

ghost use Rattle.std.specs.Prelude.{◌<◌, ◌≤◌, ℕ};
ghost use Rattle.rank_algebra.specs.Ranks.{Ranks, IsRanks};
ghost use Rattle.rank_algebra.specs.Vector.{Same, Vector, less};
ghost use Rattle.rank_algebra.specs.Combination.{Span};
ghost use Rattle.rank_algebra.specs.Division.{Basis, IsMonic, IsMultiple, IsCover, corner_of, remainder};

/// The corner of some leads is the least rank from which on every rank belongs to a multiple of one of them.
pub fn corner_is_least()
    ensures covers { (R : Ranks) (B : Basis) → IsRanks R → IsCover R B (corner_of R B) }
    ensures least { (R : Ranks) (B : Basis) (w : ℕ) → IsRanks R → IsCover R B w → corner_of R B ≤ w }
{}

/// Plain division by monic vectors, below the corner of their leads: what it leaves of v has no term that is a multiple of a lead,
/// and differs from v by a combination of these vectors, modulo degree d + 1.
pub fn plain_division()
    ensures reduced { (R : Ranks) (B : Basis) (v : Vector) (r : ℕ) → IsRanks R → IsMonic R B → IsMultiple R B r → r < R.n
        → Same R.p (remainder R B (corner_of R B) v r) 0 }
    ensures difference { (R : Ranks) (B : Basis) (v : Vector) → IsRanks R → IsMonic R B
        → Span R B.member (λ t. t.place < B.size) (less R 1 (remainder R B (corner_of R B) v) v) }
{}
