//! Two workers run beside each other, and each claim passes the gate once.

use crate::crew::solve;
use crate::problems::{JACOBIAN, TWICE, problem};
use entry_code::Item;
use std::sync::atomic::AtomicU64;
use std::sync::atomic::Ordering::SeqCst;
use std::test::Fail;
use workers::Gate;

/// It holds the worker that claimed ticket 0 until ticket 2 has been claimed.
#[derive(Drop)]
struct Holds {
    third: AtomicU64,
    bound_met: AtomicU64,
    first_worker: AtomicU64,
    second_worker: AtomicU64,
}

impl Gate for Holds {
    fn passed(&self, worker: u32, ticket: u64) {
        if ticket == 0 {
            self.first_worker.store(u64::from(worker), SeqCst);
            for _ in 0..200_000_000u64 {
                if self.third.load(SeqCst) == 1 {
                    return;
                }
            }
            self.bound_met.store(1, SeqCst);
        }
        if ticket == 1 {
            self.second_worker.store(u64::from(worker), SeqCst);
        }
        if ticket == 2 {
            self.third.store(1, SeqCst);
        }
    }
}

/// While ticket 0 is held, the other worker publishes the second generator and claims ticket 2.
#[test]
fn one_worker_publishes_while_another_is_held(rt: HostRuntime) -> Result<(), Fail> {
    let gate = Holds {
        third: AtomicU64::new(0),
        bound_met: AtomicU64::new(0),
        first_worker: AtomicU64::new(9),
        second_worker: AtomicU64::new(9),
    };
    let problem = problem(rt.alloc(), 6, TWICE)?;
    let done = solve(&rt, rt.alloc(), &problem, 2, &gate)?;
    assert!(rt; gate.bound_met.load(SeqCst) == 0);
    assert!(rt; gate.first_worker.load(SeqCst) != gate.second_worker.load(SeqCst));
    assert!(rt; done.entries.len() > 0 && done.entries.get(0).item == Item::Generator(1));
    Ok(())
}

/// It counts the claims.
#[derive(Drop)]
struct Counts {
    claims: AtomicU64,
}

impl Gate for Counts {
    fn passed(&self, _worker: u32, _ticket: u64) {
        self.claims.fetch_add(1, SeqCst);
    }
}

/// How many tickets so many generators and entries have.
fn tickets(generators: u64, entries: u64) -> u64 {
    if entries > 4096 || generators > 64 {
        return 0;
    }
    generators + entries * entries.saturating_sub(1) / 2
}

#[test]
fn each_claim_passes_the_gate_once(rt: HostRuntime) -> Result<(), Fail> {
    for workers in [1, 4] {
        let gate = Counts {
            claims: AtomicU64::new(0),
        };
        let problem = problem(rt.alloc(), 6, JACOBIAN)?;
        let done = solve(&rt, rt.alloc(), &problem, workers, &gate)?;
        let claims = tickets(2, done.entries.len() as u64);
        assert!(rt; claims > 0 && gate.claims.load(SeqCst) == claims);
    }
    Ok(())
}
