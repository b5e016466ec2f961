//! Random schedules: whatever the order of events, the same reduced basis.

ghost use Rattle.std.specs.Prelude.{◌<◌};

use crate::dice::Dice;
use crate::problems::Ideal;
use crate::watched::Watched;
use run_core::Event;
use std::alloc::Global;
use std::test::Fail;
use std::thread::Threads;

/// How many events are drawn in a schedule, before each seat in turn is carried on to its end.
const DRAWN: u32 = 60;

/// More steps than a seat makes, and more rounds than there are.
const MANY: u32 = 1000;

/// Ideals, each with its reduced basis by Singular.
const IDEALS: [Ideal; 6] = [
    // x^2, y^2, x^2+x*y+x^3 and once more x^2
    Ideal {
        prime: 32003,
        n: 2,
        d: 4,
        gens: &[
            &[(&[2, 0], 1)],
            &[(&[0, 2], 1)],
            &[(&[2, 0], 1), (&[1, 1], 1), (&[3, 0], 1)],
            &[(&[2, 0], 1)],
        ],
        basis: &[&[(&[2, 0], 1)], &[(&[1, 1], 1)], &[(&[0, 2], 1)]],
    },
    // the partial derivatives of x^5+x^2*y^2+y^5
    Ideal {
        prime: 32003,
        n: 2,
        d: 6,
        gens: &[&[(&[1, 2], 2), (&[4, 0], 5)], &[(&[2, 1], 2), (&[0, 4], 5)]],
        basis: &[
            &[(&[2, 1], 1), (&[0, 4], 16004)],
            &[(&[1, 2], 1), (&[4, 0], 16004)],
            &[(&[5, 0], 1), (&[0, 5], 32002)],
            &[(&[0, 6], 1)],
        ],
    },
    // x-x^2-y^3 and x
    Ideal {
        prime: 32003,
        n: 2,
        d: 4,
        gens: &[
            &[(&[1, 0], 1), (&[2, 0], 32002), (&[0, 3], 32002)],
            &[(&[1, 0], 1)],
        ],
        basis: &[&[(&[1, 0], 1)], &[(&[0, 3], 1)]],
    },
    // x^2+x*y^2, y^3+x^3 and x^2*y modulo 2
    Ideal {
        prime: 2,
        n: 2,
        d: 5,
        gens: &[
            &[(&[2, 0], 1), (&[1, 2], 1)],
            &[(&[0, 3], 1), (&[3, 0], 1)],
            &[(&[2, 1], 1)],
        ],
        basis: &[&[(&[2, 0], 1), (&[1, 2], 1)], &[(&[0, 3], 1)]],
    },
    // x*y, y*z, x*z+y^3, x^2+z^3 and y^2-z^2 modulo 101
    Ideal {
        prime: 101,
        n: 3,
        d: 4,
        gens: &[
            &[(&[1, 1, 0], 1)],
            &[(&[0, 1, 1], 1)],
            &[(&[1, 0, 1], 1), (&[0, 3, 0], 1)],
            &[(&[2, 0, 0], 1), (&[0, 0, 3], 1)],
            &[(&[0, 2, 0], 1), (&[0, 0, 2], 100)],
        ],
        basis: &[
            &[(&[2, 0, 0], 1)],
            &[(&[1, 1, 0], 1)],
            &[(&[0, 2, 0], 1), (&[0, 0, 2], 100)],
            &[(&[1, 0, 1], 1)],
            &[(&[0, 1, 1], 1)],
            &[(&[0, 0, 3], 1)],
        ],
    },
    // y+x^2, x*y+z^2, y^2+x*z and z^2 modulo 65521
    Ideal {
        prime: 65521,
        n: 3,
        d: 3,
        gens: &[
            &[(&[0, 1, 0], 1), (&[2, 0, 0], 1)],
            &[(&[1, 1, 0], 1), (&[0, 0, 2], 1)],
            &[(&[0, 2, 0], 1), (&[1, 0, 1], 1)],
            &[(&[0, 0, 2], 1)],
        ],
        basis: &[
            &[(&[0, 1, 0], 1), (&[2, 0, 0], 1)],
            &[(&[1, 0, 1], 1)],
            &[(&[0, 0, 2], 1)],
            &[(&[3, 0, 0], 1)],
        ],
    },
];

/// The seat with all numbers gives some of them away.
fn scatter(core: &mut Watched, dice: &mut Dice, workers: u32) -> Result<(), Fail>
    requires { 0 < workers }
{
    let alone = dice.below(workers);
    for number in (1..workers).rev() {
        if number > alone {
            core.apply(0, Event::Split(number))?;
        }
    }
    Ok(())
}

/// Whether the seat rests: it knows all entries, and has nothing to do.
fn rests(core: &mut Watched, seat: u32) -> Result<bool, Fail> {
    // Each look learns an entry or rests, and there are no more entries.
    for _ in 0..=core.progress().0 {
        if !core.apply(seat, Event::Look)? {
            return Ok(false);
        }
    }
    Ok(true)
}

/// The seat gives its greatest number away.
fn gives(core: &mut Watched, seat: u32, workers: u32) -> Result<bool, Fail> {
    for number in 0..workers {
        if core.apply(seat, Event::Split(number))? {
            return Ok(true);
        }
    }
    Ok(false)
}

/// Carries the seat with a name on until it rests, if there is one.
fn carry_on(core: &mut Watched, seat: u32, workers: u32) -> Result<(), Fail> {
    for _ in 0..MANY {
        if rests(core, seat)? {
            return Ok(());
        }
        let steps = core.apply(seat, Event::Publish)?
            || core.apply(seat, Event::Corner)?
            || core.apply(seat, Event::Claim)?
            || gives(core, seat, workers)?;
        if !steps {
            return Ok(());
        }
    }
    Err("a seat that never rests")?
}

/// Carries all seats on, round by round, until all rest.
fn finish(core: &mut Watched, workers: u32) -> Result<(), Fail> {
    for _ in 0..MANY {
        let before = core.progress();
        for seat in 0..workers {
            carry_on(core, seat, workers)?;
        }
        if core.progress() == before {
            return Ok(());
        }
    }
    Err("there is no end")?
}

/// A random schedule, after which all seats are idle.
fn run(core: &mut Watched, dice: &mut Dice, workers: u32) -> Result<(), Fail>
    requires { 0 < workers }
{
    scatter(core, dice, workers)?;
    for _ in 0..DRAWN {
        let seat = dice.below(workers);
        core.apply(seat, dice.event(workers))?;
    }
    finish(core, workers)
}

/// Random schedules for an ideal, each of which has to leave its reduced basis.
fn run_all<R: Threads + Sync>(
    rt: &R,
    alloc: Global,
    ideal: &Ideal,
    dice: &mut Dice,
    count: u32,
) -> Result<(), Fail> {
    let problem = ideal.problem(alloc)?;
    for i in 0..count {
        let workers = i % 16 + 1;
        let mut core = Watched::open(alloc, &problem, workers)?;
        run(&mut core, dice, workers)?;
        let basis = core.basis(rt, alloc)?;
        if !ideal.has_basis(alloc, &basis)? {
            return Err("another basis")?;
        }
    }
    Ok(())
}

#[test]
fn every_schedule_leaves_the_basis(rt: HostRuntime) -> Result<(), Fail> {
    let mut dice = Dice::new(88172645463325252);
    for ideal in &IDEALS {
        run_all(&rt, rt.alloc(), ideal, &mut dice, 1667)?;
    }
    Ok(())
}
