//! Marks of the ranks of multiples.

ghost use Rattle.std.specs.Prelude.{◌≡◌, ℕ, List, ◌<◌, ◌≤◌, ◌↔◌, ◌⊎◌, length, IsTrue};
ghost use Rattle.local_order.specs.Mono.{Divides};
ghost use Rattle.local_order.specs.Shape.{count};
ghost use Rattle.mono_rank.specs.Rank.{HasRank};
ghost use Rattle.corner_word.specs.Marks.{mark_at, IsMarkedFrom, IsLeastMarked};

use mono_rank::RankTable;

/// Marks the multiples of the monomial of rank `lead`. None of them is above it, so each has a rank from `lead` on.
pub(crate) fn mark_multiples(marks: &mut [bool], table: &RankTable, lead: u32)
    requires all { length marks.old ≡ count table.now }
    requires low { lead < count table.now }
    ensures { (k m : List ℕ) (r : ℕ) → HasRank table.now k lead → HasRank table.now m r
        → IsTrue (mark_at marks.new r) ↔ (IsTrue (mark_at marks.old r) ⊎ Divides k m) }
{
    for r in lead..table.count() {
        if table.divides_rank(lead, r) {
            marks[r as usize] = true;
        }
    }
}

/// The least rank that has only marked ones from it on, looked for from a rank that has them down.
pub(crate) fn lowered(marks: &[bool], from: u32) -> u32
    requires { IsMarkedFrom marks.now from }
    ensures { IsLeastMarked marks.now result }
{
    let mut corner = from;
    while corner > 0 && marks[(corner - 1) as usize] {
        corner -= 1;
    }
    corner
}
