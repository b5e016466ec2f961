//! Where a table is parted.

ghost use Rattle.std.specs.Prelude.{◌≡◌, ◌<◌, ◌≤◌, ℕ, length};
ghost use Rattle.script_table.specs.Parts.{IsEnd};

/// The line between two scripts.
pub const SEPARATOR: &[u8] = b"%%\n";

/// Where the first separator from `start` on begins, or else the table's end. A line begins at `start`.
pub fn end_of_part(table: &[u8], start: usize) -> usize
    requires { start ≤ length table.now }
    ensures behind { start ≤ result }
    ensures within { result ≤ length table.now }
    ensures parted { result < length table.now → IsEnd table.now start result }
    ensures first { (k : ℕ) → start ≤ k → k < result → ¬ IsEnd table.now start k }
{
    let mut begins_line = true;
    for i in start..table.len() {
        if begins_line && table[i..].starts_with(SEPARATOR) {
            return i;
        }
        begins_line = table[i] == b'\n';
    }
    table.len()
}
