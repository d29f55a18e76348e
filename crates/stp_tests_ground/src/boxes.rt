//! Boxes of plans: brackets, grids and moments, and why a plan has none.

use crate::setting::problem_in;
use bumpalo::Bump;
use std::alloc::Global;
use stp_base::StepId;
use stp_base::limits::MAX_FILE_BYTES;
use stp_exec::{ExecFault, box_of};
use stp_happen::{BoxRun, BoxStep};
use stp_plan::read_plan;
use stp_refusal::Code;
use stp_schema::Problem;

const DOMAIN: &[u8] = b"(define (domain t) (:predicates (f) (g))
 (:action see)
 (:action look :precondition (f))
 (:durative-action choose :duration (and (>= ?duration 1) (<= ?duration 2)))
 (:durative-action two :uncontrollable-duration (= ?duration 2))
 (:durative-action come :uncontrollable-duration (and (>= ?duration 1) (<= ?duration 2))
   :effect (at end (f)))
 (:durative-action odd :uncontrollable-duration (and (>= ?duration 1/3) (<= ?duration 7/5)))
 (:durative-action slow :uncontrollable-duration (and (>= ?duration 2) (<= ?duration 7/3)))
 (:durative-action wait :uncontrollable-duration (and (>= ?duration 1) (<= ?duration 3))))";

const PROBLEM: &[u8] = b"(define (problem y) (:domain t) (:init) (:goal (f)))";

/// A step: its start, its least and its greatest end, its key, and whether it is uncertain and has an end.
type Row = (u128, u128, u128, u32, bool, bool);

/// Whether a step is this.
fn is_step(step: &BoxStep<'_>, row: Row) -> bool {
    (
        step.start,
        step.low,
        step.high,
        step.key,
        step.uncertain,
        step.last.is_some(),
    ) == row
}

/// Whether a box has this grid and these steps, and one atom, which is false at first.
fn is_box(boxed: &BoxRun<'_>, grid: u128, rows: &[Row]) -> bool {
    let steps = boxed.steps.as_slice();
    if boxed.grid != grid || steps.len() != rows.len() || boxed.initial.len() != 1 {
        return false;
    }
    for (step, row) in steps.iter().zip(rows.iter()) {
        if !is_step(step, *row) {
            return false;
        }
    }
    true
}

/// The box of a plan's text; want of memory where that is no plan.
pub fn boxed<'a>(
    alloc: Global,
    arena: &'a Bump,
    problem: &'a Problem<'a>,
    plan: &[u8],
) -> Result<BoxRun<'a>, ExecFault> {
    if plan.len() > MAX_FILE_BYTES {
        return Err(ExecFault::Memory);
    }
    let Ok(plan) = read_plan(alloc, plan) else {
        return Err(ExecFault::Memory);
    };
    box_of(alloc, arena, problem, &plan)
}

/// Whether a plan has this box.
fn has_box(alloc: Global, plan: &[u8], grid: u128, rows: &[Row]) -> bool {
    let arena = Bump::new(alloc);
    let Some(problem) = problem_in(alloc, &arena, DOMAIN, PROBLEM) else {
        return false;
    };
    match boxed(alloc, &arena, &problem, plan) {
        Ok(boxed) => is_box(&boxed, grid, rows),
        Err(_fault) => false,
    }
}

/// Whether a plan has no box, because of this.
fn is_refused(alloc: Global, plan: &[u8], wanted: ExecFault) -> bool {
    let arena = Bump::new(alloc);
    let Some(problem) = problem_in(alloc, &arena, DOMAIN, PROBLEM) else {
        return false;
    };
    match boxed(alloc, &arena, &problem, plan) {
        Ok(_boxed) => false,
        Err(fault) => fault == wanted,
    }
}

const BOXES: [(&[u8], u128, &[Row]); 19] = [
    (b"", 1, &[]),
    (
        b"0: (come) [*]\n5/2: (look)\n3: (come) [1,2]\n",
        2,
        &[
            (0, 2, 4, 1, true, true),
            (5, 5, 5, 2, false, false),
            (6, 8, 10, 1, true, true),
        ],
    ),
    // brackets
    (b"0: (see)", 1, &[(0, 0, 0, 1, false, false)]),
    (b"0: (see) [0]", 1, &[(0, 0, 0, 1, false, false)]),
    (b"0: (choose) [1]", 1, &[(0, 1, 1, 1, false, true)]),
    (b"0: (choose) [2]", 1, &[(0, 2, 2, 1, false, true)]),
    (b"0: (two) [2]", 1, &[(0, 2, 2, 1, false, true)]),
    (b"0: (two) [*]", 1, &[(0, 2, 2, 1, false, true)]),
    (b"0: (two) [2,2]", 1, &[(0, 2, 2, 1, false, true)]),
    (b"0: (come) [*]", 1, &[(0, 1, 2, 1, true, true)]),
    (b"0: (come) [1,2]", 1, &[(0, 1, 2, 1, true, true)]),
    // grids and moments
    (b"3/2: (see)", 2, &[(3, 3, 3, 1, false, false)]),
    (b"1/3: (choose) [1.25]", 12, &[(4, 19, 19, 1, false, true)]),
    (b"1/2: (slow) [*]", 6, &[(3, 15, 17, 1, true, true)]),
    (
        b"1/2: (odd) [*]\n1/7: (see)",
        210,
        &[
            (105, 175, 399, 1, true, true),
            (30, 30, 30, 2, false, false),
        ],
    ),
    // the latest moments
    (
        b"999999999: (see)",
        1,
        &[(999_999_999, 999_999_999, 999_999_999, 1, false, false)],
    ),
    (
        b"999999998: (choose) [1]",
        1,
        &[(999_999_998, 999_999_999, 999_999_999, 1, false, true)],
    ),
    (
        b"999999997: (come) [*]",
        1,
        &[(999_999_997, 999_999_998, 999_999_999, 1, true, true)],
    ),
    (
        b"0: (see)\n0: (look)\n0: (see)",
        1,
        &[
            (0, 0, 0, 1, false, false),
            (0, 0, 0, 2, false, false),
            (0, 0, 0, 1, false, false),
        ],
    ),
];

#[test]
fn plans_have_boxes(rt: HostRuntime) {
    for (plan, grid, rows) in BOXES.iter() {
        assert!(rt; has_box(rt.alloc(), plan, *grid, rows), "{plan:?}");
    }
}

const REFUSED: [(&[u8], ExecFault); 22] = [
    (b"0: (see) [1]", ExecFault::Step(StepId(1), Code::X07)),
    (b"0: (see) [*]", ExecFault::Step(StepId(1), Code::X07)),
    (b"0: (see) [0,0]", ExecFault::Step(StepId(1), Code::X07)),
    (b"0: (choose)", ExecFault::Step(StepId(1), Code::X06)),
    (b"0: (choose) [0]", ExecFault::Step(StepId(1), Code::X08)),
    (b"0: (choose) [3]", ExecFault::Step(StepId(1), Code::X08)),
    (b"0: (choose) [*]", ExecFault::Step(StepId(1), Code::X06)),
    (b"0: (choose) [1,2]", ExecFault::Step(StepId(1), Code::X06)),
    (b"0: (two)", ExecFault::Step(StepId(1), Code::X06)),
    (b"0: (two) [1]", ExecFault::Step(StepId(1), Code::X08)),
    (b"0: (two) [1,2]", ExecFault::Step(StepId(1), Code::X06)),
    (b"0: (come)", ExecFault::Step(StepId(1), Code::X06)),
    (b"0: (come) [1]", ExecFault::Step(StepId(1), Code::X07)),
    (b"0: (come) [1,3]", ExecFault::Step(StepId(1), Code::X09)),
    (b"0: (come) [3,2]", ExecFault::Step(StepId(1), Code::X09)),
    (
        b"0: (see)\n0: (nope)",
        ExecFault::Step(StepId(2), Code::X01),
    ),
    (
        b"0: (come) [1]\n0: (nope)",
        ExecFault::Step(StepId(1), Code::X07),
    ),
    (
        b"1/99991: (see)\n1/99989: (choose) [2]",
        ExecFault::GridTooFine,
    ),
    (b"9999999991/10: (see)", ExecFault::TimeTooLarge(StepId(1))),
    (
        b"999999998: (choose) [2]",
        ExecFault::TimeTooLarge(StepId(1)),
    ),
    (b"999999997: (wait) [*]", ExecFault::TimeTooLarge(StepId(1))),
    (
        b"0: (see)\n999999998: (come) [*]",
        ExecFault::TimeTooLarge(StepId(2)),
    ),
];

#[test]
fn plans_are_refused(rt: HostRuntime) {
    for (plan, fault) in REFUSED.iter() {
        assert!(rt; is_refused(rt.alloc(), plan, *fault), "{plan:?}");
    }
}
