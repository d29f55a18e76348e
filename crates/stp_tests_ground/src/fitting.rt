//! Durations for uncertain steps and moments for events, on the least grid on which they lie.

use crate::setting::{between, problem_in};
use bumpalo::Bump;
use std::alloc::Global;
use stp_base::limits::MAX_FILE_BYTES;
use stp_exec::{BoxedPlan, Fitted, box_placed, fit_durations, place, read_durations};
use stp_ground::World;
use stp_plan::read_plan;
use stp_refusal::{Code, ReadFault};

const DOMAIN: &[u8] = b"(define (domain e) (:predicates (f))
 (:durative-action come :uncontrollable-duration (and (>= ?duration 1) (<= ?duration 2))
   :effect (at end (f)))
 (:durative-action wait :duration (and (>= ?duration 1) (<= ?duration 2))))";

const INIT: &[u8] = b"(define (problem y) (:domain e) (:goal (and)) (:init ";

/// The box of a plan's text, and its times.
fn made<'a>(
    alloc: Global,
    arena: &'a Bump,
    world: &mut World<'a>,
    plan: &[u8],
) -> Option<BoxedPlan<'a>> {
    if plan.len() > MAX_FILE_BYTES {
        return None;
    }
    let Ok(plan) = read_plan(alloc, plan) else {
        return None;
    };
    let Ok(placed) = place(alloc, arena, world, &plan) else {
        return None;
    };
    box_placed(alloc, arena, world, placed.as_slice()).ok()
}

/// What a list of durations and moments is for a box.
fn fitted(alloc: Global, made: &BoxedPlan<'_>, list: &[u8]) -> Result<Fitted, ReadFault> {
    let Ok(durations) = read_durations(alloc, list) else {
        return Err(ReadFault::Memory);
    };
    if durations.as_slice().len() > 100 {
        return Err(ReadFault::Memory);
    }
    fit_durations(alloc, made.boxed.grid, &made.times, durations.as_slice())
}

/// What a list is for a plan of the problem with these items of `:init`; want of memory where the problem or the plan is
/// refused.
fn fitted_in(alloc: Global, init: &[u8], plan: &[u8], list: &[u8]) -> Result<Fitted, ReadFault> {
    let arena = Bump::new(alloc);
    let text = between(alloc, &[INIT, init, b"))"])?;
    let Some(problem) = problem_in(alloc, &arena, DOMAIN, text.as_slice()) else {
        return Err(ReadFault::Memory);
    };
    let mut world = World::new(alloc, &problem)?;
    let Some(made) = made(alloc, &arena, &mut world, plan) else {
        return Err(ReadFault::Memory);
    };
    fitted(alloc, &made, list)
}

/// Whether a list is these whole numbers on this grid.
fn is_fitted(alloc: Global, row: &Fits) -> bool {
    match fitted_in(alloc, row.0, row.1, row.2) {
        Ok(fitted) => fitted.grid == row.3 && fitted.durations.as_slice() == row.4,
        Err(_fault) => false,
    }
}

/// Whether a list is refused so.
fn is_refused(alloc: Global, row: &Fails) -> bool {
    match fitted_in(alloc, row.0, row.1, row.2) {
        Ok(_fitted) => false,
        Err(fault) => {
            fault
                == ReadFault::Refused {
                    code: row.3,
                    at: row.4,
                }
        }
    }
}

/// Items of `:init`, a plan, a list, the grid, and the whole numbers.
type Fits = (
    &'static [u8],
    &'static [u8],
    &'static [u8],
    u128,
    &'static [u128],
);

/// Items of `:init`, a plan, a list, the code, and the place.
type Fails = (&'static [u8], &'static [u8], &'static [u8], Code, u32);

const ONE: &[u8] = b"(between 3 6 (f))";

const TWO: &[u8] = b"(between 3 6 (f)) (at 1/4 (f)) (between 1/3 2 (f))";

const COME: &[u8] = b"0: (come) [*]";

const FITS: [Fits; 12] = [
    (b"", b"", b"none", 1, &[]),
    (b"(at 5/2 (f))", b"", b"none", 2, &[]),
    (ONE, b"", b"3", 1, &[3]),
    (ONE, b"", b"6", 1, &[6]),
    (ONE, b"", b"9/2", 2, &[9]),
    (ONE, COME, b"1,3", 1, &[1, 3]),
    (ONE, COME, b"3/2,13/3", 6, &[9, 26]),
    (
        ONE,
        b"0: (come) [*]\n0: (wait) [1]\n1/2: (come) [1,2]",
        b"1,2,4",
        2,
        &[2, 4, 8],
    ),
    // events in the order of the text
    (TWO, b"", b"4,1", 12, &[48, 12]),
    (TWO, COME, b"2,6,1/3", 12, &[24, 72, 4]),
    (TWO, COME, b"1.2,3,1.75", 60, &[72, 180, 105]),
    (
        b"(between 1 2 (f)) (between 1 2 (and))",
        b"",
        b"2,1",
        1,
        &[2, 1],
    ),
];

const FAILS: [Fails; 19] = [
    // their number
    (b"", b"", b"1", Code::V02, 1),
    (b"(at 5 (f))", b"", b"5", Code::V02, 1),
    (b"(between 5 5 (f))", b"", b"5", Code::V02, 1),
    (ONE, b"", b"none", Code::V02, 0),
    (ONE, b"", b"3,4", Code::V02, 2),
    (ONE, COME, b"none", Code::V02, 0),
    (ONE, COME, b"1", Code::V02, 1),
    (ONE, COME, b"9,9,9", Code::V02, 3),
    (TWO, COME, b"1,3", Code::V02, 2),
    // the first outside
    (ONE, b"", b"2", Code::V03, 1),
    (ONE, b"", b"13/2", Code::V03, 1),
    (ONE, COME, b"3,1", Code::V03, 1),
    (ONE, COME, b"1,2", Code::V03, 2),
    (ONE, COME, b"1,7", Code::V03, 2),
    (TWO, b"", b"1,4", Code::V03, 1),
    (TWO, COME, b"2,6,1/4", Code::V03, 3),
    (TWO, COME, b"100000/99991,400000/99989,3", Code::V03, 3),
    // a grid that is too fine
    (ONE, COME, b"100000/99991,400000/99989", Code::V04, 0),
    (TWO, b"", b"400000/99991,100000/99989", Code::V04, 0),
];

#[test]
fn durations_and_moments(rt: HostRuntime) {
    for row in FITS.iter() {
        let list = row.2;
        assert!(rt; is_fitted(rt.alloc(), row), "{list:?}");
    }
    for row in FAILS.iter() {
        let list = row.2;
        assert!(rt; is_refused(rt.alloc(), row), "{list:?}");
    }
}
