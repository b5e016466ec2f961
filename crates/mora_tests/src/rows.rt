//! Many rows in one block of memory.

ghost use Rattle.std.specs.Prelude.{◌≡◌, length, IfOk};

use std::alloc::{AllocError, Global};
use std::test::Fail;
use trunc_row::{Row, Rows};

/// Two rows of three zeros, in a block that has room for no more.
fn two_rows(alloc: Global, row: &Row) -> Result<Rows, AllocError>
    requires { length row.now ≡ 3 }
    ensures width { IfOk result (λ r. r.width ≡ 3) }
    ensures rows { IfOk result (λ r. length r.list ≡ 2) }
{
    let mut rows = Rows::room(alloc, 3, 2)?;
    rows.push(row)?;
    rows.push(row)?;
    Ok(rows)
}

#[test]
fn rows_are_lent(rt: HostRuntime) -> Result<(), Fail> {
    let row = Row::zero(rt.alloc(), 3)?;
    let mut rows = two_rows(rt.alloc(), &row)?;
    let is_full = rows.push(&row).is_err();
    let is_lent = row.residues() == [0, 0, 0].as_slice() && rows.get(1) == row.residues();
    rows.clear();
    let none = rows.len();
    let is_free = rows.push(&row).is_ok();
    assert!(rt; (is_full, is_lent, none, is_free) == (true, true, 0, true));
    Ok(())
}
