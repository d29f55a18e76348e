//! A box of four steps: one ends from 3 to 5 and adds f, one is at 5, one ends from 7 to 9 and adds f, and
//! one at 6 deletes f. At first f is false and g is true.

use crate::sketches::{Case, Effect, F, G, boxed, durative};
use bumpalo::Bump;
use std::alloc::Global;
use std::test::*;
use stp_base::{AtomId, Memory, StepId};
use stp_happen::{BoxRun, by_owners};
use stp_strength::is_sound;
use stp_window::{PointOf, certain_value, is_there, may_meet, unsettled};

fn four_steps() -> Case {
    Case {
        f: false,
        g: true,
        steps: [
            durative(0, 3, 5, 1, Effect::AddF),
            durative(5, 0, 0, 2, Effect::Nothing),
            durative(1, 6, 8, 3, Effect::AddF),
            durative(6, 0, 0, 4, Effect::DropF),
        ],
    }
}

/// Whether two points of the box are there and may meet.
pub fn are_met(boxed: &BoxRun<'_>, one: PointOf, other: PointOf) -> bool {
    is_there(boxed, one) && is_there(boxed, other) && may_meet(boxed, one, other)
}

/// Whether this is certain of an atom at a moment. The box is strong, so no opposite writers may meet.
pub fn is_certain(
    alloc: Global,
    boxed: &BoxRun<'_>,
    atom: AtomId,
    time: u128,
    value: bool,
) -> Result<bool, Memory> {
    let owned = by_owners(alloc, boxed)?;
    if boxed.initial.len() <= atom.0 || !is_sound(alloc, &owned)? {
        return Ok(false);
    }
    Ok(certain_value(boxed, atom, time) == value)
}

/// Whether these are the unsettled steps at a moment.
pub fn are_unsettled(
    alloc: Global,
    boxed: &BoxRun<'_>,
    time: u128,
    steps: &[StepId],
) -> Result<bool, Memory> {
    let found = unsettled(alloc, boxed, time)?;
    Ok(found.as_slice() == steps)
}

/// Whether what is certain is so before, at and between the ends of windows.
fn values_are_certain(alloc: Global, boxed: &BoxRun<'_>) -> Result<bool, Memory> {
    Ok(
        is_certain(alloc, boxed, F, 3, false)?
            && is_certain(alloc, boxed, F, 4, false)?
            && is_certain(alloc, boxed, F, 5, true)?
            && is_certain(alloc, boxed, F, 6, false)?
            && is_certain(alloc, boxed, F, 9, true)?
            && is_certain(alloc, boxed, G, 9, true)?,
    )
}

/// Whether steps are unsettled from the low end of a window on and before the high end.
fn ends_are_unsettled(alloc: Global, boxed: &BoxRun<'_>) -> Result<bool, Memory> {
    Ok(
        are_unsettled(alloc, boxed, 2, &[])?
            && are_unsettled(alloc, boxed, 3, &[StepId(1)])?
            && are_unsettled(alloc, boxed, 4, &[StepId(1)])?
            && are_unsettled(alloc, boxed, 5, &[])?
            && are_unsettled(alloc, boxed, 8, &[StepId(3)])?,
    )
}

/// Whether windows that touch at an end meet, and others do not.
fn windows_meet(boxed: &BoxRun<'_>) -> bool {
    let end = PointOf::Last(StepId(1));
    are_met(boxed, end, PointOf::First(StepId(2)))
        && !are_met(boxed, end, PointOf::First(StepId(4)))
        && !is_there(boxed, PointOf::Last(StepId(2)))
        && is_there(boxed, PointOf::First(StepId(4)))
        && !is_there(boxed, PointOf::First(StepId(5)))
}

#[test]
fn windows_of_four_steps(rt: HostRuntime) -> Result<(), Fail> {
    let alloc = rt.alloc();
    let arena = Bump::new(alloc);
    let boxed = boxed(alloc, &arena, four_steps())?;
    assert!(rt; windows_meet(&boxed), "5 is in both windows, 6 is not");
    assert!(rt; values_are_certain(alloc, &boxed)?, "f ends at 5, 6 and 9");
    assert!(rt; ends_are_unsettled(alloc, &boxed)?, "3 to 5 and 7 to 9");
    Ok(())
}
