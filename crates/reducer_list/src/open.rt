//! A new board.

ghost use Rattle.std.specs.Prelude.{◌≡◌, ◌≤◌, IfOk, replicate};
ghost use Rattle.sparse_poly.specs.Shape.{shape_of};
ghost use Rattle.reducer_list.specs.View.{max_workers, one_seat};
ghost use Rattle.reducer_list.specs.Calls.{IsAt};

use crate::board::SharedBoard;
use crate::seat::BoardSeat;
use atomic_table::Table;
use mono_rank::{RankError, RankTable};
use run_core::laws;
use sparse_poly::Problem;
use std::alloc::{AllocError, Global};
use std::snapshot::Snapshot;

/// So many words that are 0.
fn zeros(alloc: Global, size: usize) -> Result<Vec<u64>, AllocError>
    ensures { IfOk result (λ v. v.items ≡ replicate size 0) }
{
    Vec::from_elem(alloc, 0u64, size)
}

/// The ranks of the problem's monomials, of which there are never too many.
fn table_of(alloc: Global, problem: &Problem) -> Result<RankTable, AllocError>
    ensures { IfOk result (λ t. t ≡ shape_of problem.now) }
{
    let _field = problem.field();
    match RankTable::new(alloc, problem.n(), problem.d()) {
        Ok(table) => Ok(table),
        Err(RankError::Memory) => Err(AllocError),
        Err(RankError::TooManyMonomials(_)) => unreachable!(),
    }
}

impl SharedBoard {
    /// A board without entries, whose corner word is the number of monomials and whose ticket word is 0, and the seat that has all worker
    /// numbers. Want of memory is the one refusal.
    pub fn open(
        alloc: Global,
        problem: &Problem,
        workers: u32,
    ) -> Result<(SharedBoard, BoardSeat), AllocError>
        requires some { 1 ≤ workers }
        requires few { workers ≤ max_workers }
        ensures setting { IfOk result (λ r. r.0.setting ≡ record { problem = problem.now; workers = workers }) }
        ensures board { IfOk result (λ r. IsAt r.0 r.1) }
        ensures seat { IfOk result (λ r. r.1.view ≡ one_seat (record { problem = problem.now; workers = workers })) }
    {
        laws::opening_is_sound();
        let generators = problem.generator_count();
        let _problem = problem.n();
        let copy = problem.copy(alloc)?;
        let ranks = table_of(alloc, problem)?;
        let top = ranks.count();
        let n = top as usize;
        let size = n + 3 + (n + workers as usize) * (n + 8);
        let mut words = zeros(alloc, size)?;
        words[0] = u64::from(top);
        let key = (Snapshot::of(problem), workers);
        let (table, seat) = Table::of_words(alloc, words.as_slice(), &key)?;
        let board = SharedBoard {
            table,
            problem: copy,
            ranks,
            generators,
            top,
            workers,
        };
        let seat = BoardSeat {
            seat,
            known: 0,
            seen: 0,
            chunk: 0,
            others: workers as usize - 1,
            rest: [1, 2, 3, 4, 5, 6, 7, 8, 9, 10, 11, 12, 13, 14, 15, 16],
        };
        Ok((board, seat))
    }
}
