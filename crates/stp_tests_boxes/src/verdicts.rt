//! Verdicts and least failures, worked by hand and beside all vectors, one by one.

use crate::families::first_failing;
use crate::sketches::{
    Case, Effect, Over, Sketch, boxed, drop_f, durative, hold, late_f, long_f, none, off_f, on_f,
    plan, see_f, swap, up_f,
};
use bumpalo::Bump;
use std::alloc::Global;
use std::test::*;
use stp_base::Memory;
use stp_check::{Verdict, strong};
use stp_happen::{BoxRun, by_owners};
use stp_least::least_failure;

/// Whether a box is found to fail first at these durations, or to be strong where there are none.
pub fn is_found(
    alloc: Global,
    boxed: &BoxRun<'_>,
    failure: Option<&[u128]>,
) -> Result<bool, Memory> {
    let verdict = strong(alloc, boxed)?;
    let least = least_failure(alloc, boxed)?;
    if matches!(verdict, Verdict::Strong) != failure.is_none() {
        return Ok(false);
    }
    match least {
        None => Ok(failure.is_none()),
        Some(found) => Ok(failure == Some(found.as_slice())),
    }
}

/// Whether a case is found to fail first at these durations, or to be strong where there are none.
fn case_is(alloc: Global, case: Case, failure: Option<&[u128]>) -> Result<bool, Memory> {
    let arena = Bump::new(alloc);
    let boxed = boxed(alloc, &arena, case)?;
    is_found(alloc, &boxed, failure)
}

/// Whether a box is found to fail first at the first of all vectors that fail.
pub fn is_right(alloc: Global, boxed: &BoxRun<'_>) -> Result<bool, Memory> {
    let owned = by_owners(alloc, boxed)?;
    match first_failing(alloc, &owned, 0, &[])? {
        None => is_found(alloc, boxed, None),
        Some(first) => is_found(alloc, boxed, Some(first.as_slice())),
    }
}

/// Whether a case is found to fail first at the first of all vectors that fail.
fn case_is_right(alloc: Global, case: Case) -> Result<bool, Memory> {
    let arena = Bump::new(alloc);
    let boxed = boxed(alloc, &arena, case)?;
    is_right(alloc, &boxed)
}

#[test]
fn worked_failures(rt: HostRuntime) {
    let rows: [(Case, Option<&[u128]>); 9] = [
        (plan(false, false, on_f(0), off_f(0), none()), Some(&[4, 4])),
        (plan(true, false, late_f(0), see_f(2), none()), None),
        (plan(true, false, late_f(0), see_f(3), none()), Some(&[3])),
        (plan(true, false, late_f(0), see_f(5), none()), Some(&[5])),
        (plan(false, false, late_f(0), see_f(6), none()), None),
        (
            plan(true, false, drop_f(0), hold(0, 4, Over::F), none()),
            Some(&[3]),
        ),
        (
            plan(false, true, swap(0), hold(0, 6, Over::FOrG), none()),
            None,
        ),
        (
            plan(false, false, up_f(0), long_f(0), see_f(6)),
            Some(&[1, 6]),
        ),
        (plan(false, false, up_f(0), up_f(5), none()), Some(&[5, 1])),
    ];
    for (case, failure) in rows {
        assert!(rt; matches!(case_is(rt.alloc(), case, failure), Ok(true)));
    }
}

/// Where two windows have a moment in common, no vector of their bounds alone shows it.
#[test]
fn bounds_alone_execute(rt: HostRuntime) {
    for (on, off) in [(2, 4), (2, 9), (6, 4), (6, 9)] {
        let fixed_on = Sketch {
            lo: on,
            hi: on,
            ..on_f(0)
        };
        let fixed_off = Sketch {
            lo: off,
            hi: off,
            ..off_f(0)
        };
        let case = plan(false, false, fixed_on, fixed_off, none());
        assert!(rt;
            matches!(case_is(rt.alloc(), case, None), Ok(true)),
            "{on} and {off}"
        );
    }
}

/// A step that adds f, one that varies, one that swaps, and one in which something has to hold.
fn crowd(f: bool, at: u8, effect: Effect, over: Over) -> Case {
    let held = Sketch {
        over,
        ..durative(1, 3, 5, 4, Effect::Nothing)
    };
    Case {
        f,
        g: true,
        steps: [
            durative(0, 2, 4, 1, Effect::AddF),
            durative(at, 1, 3, 2, effect),
            durative(2, 1, 2, 3, Effect::Swap),
            held,
        ],
    }
}

#[test]
fn least_failures_of_crowds(rt: HostRuntime) {
    for over in [Over::Always, Over::F, Over::FOrG] {
        for effect in [Effect::AddF, Effect::DropF, Effect::Swap] {
            for at in 0..5u8 {
                for f in [true, false] {
                    let case = crowd(f, at, effect, over);
                    assert!(rt;
                        matches!(case_is_right(rt.alloc(), case), Ok(true)),
                        "at {at}"
                    );
                }
            }
        }
    }
}
