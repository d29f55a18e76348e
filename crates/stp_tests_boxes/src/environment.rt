//! Boxes with events of the environment: verdicts and least failures, worked by hand and beside all vectors, and
//! windows.
//!
//! An event that is written [3, 5] has a chosen moment from 3 to 5.

ghost use Rattle.std.specs.Prelude.{◌≤◌};

use crate::families::is_judged;
use crate::sketches::{
    Case, Effect, F, H, Happening, Over, Sketch, World, at, between, boxed_in, clear_f, durative,
    hold, late_f, none, plan, see_f, silence, up_f,
};
use crate::verdicts::{is_found, is_right};
use crate::windows::{are_met, are_unsettled, is_certain};
use bumpalo::Bump;
use std::alloc::Global;
use std::test::*;
use stp_base::{Memory, StepId};
use stp_happen::BoxRun;
use stp_window::{PointOf, is_there, meeting};

/// A box without steps, of which f may be true at first.
fn no_steps(f: bool) -> Case {
    plan(f, false, none(), none(), none())
}

/// A box with one step, of which f may be true at first.
fn one_step(f: bool, step: Sketch) -> Case {
    plan(f, false, step, none(), none())
}

/// With one event, and no goal.
fn under(case: Case, event: Happening) -> World {
    World {
        case,
        events: [event, silence(), silence()],
        goal: Over::Always,
    }
}

/// With two events, and no goal.
fn under_both(case: Case, one: Happening, other: Happening) -> World {
    World {
        case,
        events: [one, other, silence()],
        goal: Over::Always,
    }
}

/// In which f has to hold at the end.
fn to_f(world: World) -> World {
    World {
        goal: Over::F,
        ..world
    }
}

/// Whether a box fails first at this vector, or is strong where there is none: as it is found, as all vectors show
/// one by one, and on finer grids.
fn world_is(alloc: Global, world: World, failure: Option<&[u128]>) -> Result<bool, Memory> {
    let arena = Bump::new(alloc);
    let boxed = boxed_in(alloc, &arena, world)?;
    Ok(
        is_found(alloc, &boxed, failure)?
            && is_right(alloc, &boxed)?
            && is_judged(alloc, &boxed, failure.is_none())?,
    )
}

#[test]
fn events_at_fixed_moments(rt: HostRuntime) {
    let added = at(5, Effect::AddF);
    let dropped = at(4, Effect::DropF);
    let rows: [(World, Option<&[u128]>); 10] = [
        (under(one_step(false, see_f(6)), added), None),
        (under(one_step(false, see_f(5)), added), Some(&[])),
        (under(one_step(false, see_f(4)), added), Some(&[])),
        (under(one_step(true, up_f(0)), dropped), Some(&[4])),
        (under(one_step(true, hold(0, 4, Over::F)), dropped), None),
        (
            under(one_step(true, hold(0, 5, Over::F)), dropped),
            Some(&[]),
        ),
        (
            under(one_step(false, see_f(0)), at(0, Effect::AddF)),
            Some(&[]),
        ),
        (under(one_step(false, see_f(1)), at(0, Effect::AddF)), None),
        (to_f(under(one_step(true, see_f(1)), dropped)), Some(&[])),
        (
            to_f(under_both(one_step(true, see_f(1)), dropped, added)),
            None,
        ),
    ];
    for (world, failure) in rows {
        assert!(rt; matches!(world_is(rt.alloc(), world, failure), Ok(true)));
    }
}

#[test]
fn an_event_at_a_chosen_moment(rt: HostRuntime) {
    let dropped = between(3, 5, Effect::DropF);
    let added = between(2, 4, Effect::AddF);
    let swapped = between(2, 4, Effect::Swap);
    let held = hold(1, 6, Over::FOrG);
    let rows: [(World, Option<&[u128]>); 12] = [
        (under(one_step(true, hold(0, 3, Over::F)), dropped), None),
        (
            under(one_step(true, hold(0, 4, Over::F)), dropped),
            Some(&[3]),
        ),
        (under(one_step(true, see_f(5)), dropped), Some(&[3])),
        (under(one_step(true, see_f(3)), dropped), Some(&[3])),
        (under(one_step(true, see_f(2)), dropped), None),
        (
            under(one_step(true, hold(4, 2, Over::F)), dropped),
            Some(&[3]),
        ),
        (
            under(one_step(false, hold(3, 2, Over::F)), added),
            Some(&[4]),
        ),
        (under(one_step(false, hold(4, 2, Over::F)), added), None),
        (
            under(one_step(false, see_f(4)), between(0, 4, Effect::AddF)),
            Some(&[4]),
        ),
        (
            to_f(under(one_step(true, see_f(1)), between(7, 9, Effect::DropF))),
            Some(&[7]),
        ),
        (
            under(plan(false, true, held, none(), none()), swapped),
            None,
        ),
        (
            under(plan(false, true, held, clear_f(5), none()), swapped),
            Some(&[2]),
        ),
    ];
    for (world, failure) in rows {
        assert!(rt; matches!(world_is(rt.alloc(), world, failure), Ok(true)));
    }
}

#[test]
fn events_at_chosen_moments(rt: HostRuntime) {
    let added = between(1, 3, Effect::AddF);
    let dropped = between(3, 6, Effect::DropF);
    let later = between(4, 6, Effect::DropF);
    let rows: [(World, Option<&[u128]>); 9] = [
        (
            under_both(no_steps(false), between(1, 4, Effect::AddF), dropped),
            Some(&[3, 3]),
        ),
        (under_both(no_steps(false), added, dropped), Some(&[3, 3])),
        (under_both(no_steps(false), dropped, added), Some(&[3, 3])),
        (under_both(no_steps(false), added, later), None),
        (
            to_f(under_both(no_steps(false), added, later)),
            Some(&[1, 4]),
        ),
        (
            to_f(under_both(no_steps(true), between(0, 0, Effect::DropF), added)),
            None,
        ),
        (
            to_f(under_both(no_steps(false), added, between(2, 5, Effect::AddF))),
            None,
        ),
        (
            under_both(one_step(false, late_f(0)), added, later),
            Some(&[4, 1, 4]),
        ),
        (
            under_both(one_step(false, see_f(4)), added, dropped),
            Some(&[1, 3]),
        ),
    ];
    for (world, failure) in rows {
        assert!(rt; matches!(world_is(rt.alloc(), world, failure), Ok(true)));
    }
}

#[test]
fn events_of_one_moment(rt: HostRuntime) {
    let added = at(3, Effect::AddF);
    let chosen = between(3, 3, Effect::DropF);
    let seen = one_step(false, see_f(4));
    let rows: [(World, Option<&[u128]>); 6] = [
        (under_both(seen, added, between(3, 3, Effect::AddH)), None),
        (under_both(seen, added, chosen), Some(&[3])),
        (
            under_both(seen, between(3, 3, Effect::AddF), chosen),
            Some(&[3, 3]),
        ),
        (under_both(seen, added, between(0, 2, Effect::DropF)), None),
        (
            under_both(seen, added, between(1, 3, Effect::DropF)),
            Some(&[3]),
        ),
        (under_both(seen, at(1, Effect::DropF), added), None),
    ];
    for (world, failure) in rows {
        assert!(rt; matches!(world_is(rt.alloc(), world, failure), Ok(true)));
    }
}

/// A step that adds f, one in which something has to hold, one that sees f, and three events.
fn crowd(f: bool, moment: u8, effect: Effect, over: Over) -> World
    requires { moment ≤ 200 }
{
    let case = Case {
        f,
        g: true,
        steps: [
            durative(0, 2, 4, 1, Effect::AddF),
            hold(moment, 3, over),
            see_f(7),
            none(),
        ],
    };
    World {
        case,
        events: [
            at(5, Effect::AddF),
            between(1, 2, Effect::DropF),
            between(moment, moment + 2, effect),
        ],
        goal: over,
    }
}

/// Whether a box is found to fail first at the first of all vectors that fail.
fn world_is_right(alloc: Global, world: World) -> Result<bool, Memory> {
    let arena = Bump::new(alloc);
    let boxed = boxed_in(alloc, &arena, world)?;
    is_right(alloc, &boxed)
}

#[test]
fn least_failures_of_crowds_with_events(rt: HostRuntime) {
    for over in [Over::Always, Over::F, Over::FOrG] {
        for effect in [Effect::AddF, Effect::DropF, Effect::Swap, Effect::AddH] {
            for moment in 0..8u8 {
                for f in [true, false] {
                    let world = crowd(f, moment, effect, over);
                    assert!(rt;
                        matches!(world_is_right(rt.alloc(), world), Ok(true)),
                        "at {moment}"
                    );
                }
            }
        }
    }
}

/// A step that ends from 3 to 5 and adds f, one at 6, and events: one at 2, and one from 5 to 8 and one from 7 to 9,
/// which add h. At first f is true.
fn windows() -> World {
    World {
        case: plan(
            true,
            false,
            late_f(0),
            durative(6, 0, 0, 2, Effect::Nothing),
            none(),
        ),
        events: [
            at(2, Effect::DropF),
            between(5, 8, Effect::AddH),
            between(7, 9, Effect::AddH),
        ],
        goal: Over::Always,
    }
}

/// Whether the windows of events meet others where they have a moment in common.
fn events_meet(boxed: &BoxRun<'_>) -> bool {
    let end = PointOf::Last(StepId(1));
    are_met(boxed, end, PointOf::Timed(1))
        && !are_met(boxed, end, PointOf::Timed(0))
        && !are_met(boxed, end, PointOf::Timed(2))
        && are_met(boxed, PointOf::Timed(1), PointOf::Timed(2))
        && are_met(boxed, PointOf::Timed(1), PointOf::First(StepId(2)))
        && !are_met(boxed, PointOf::Timed(2), PointOf::First(StepId(2)))
        && is_there(boxed, PointOf::Timed(2))
        && !is_there(boxed, PointOf::Timed(3))
}

/// Whether events are unsettled from the low end of a window on and before the high end, with the numbers after
/// those of the steps.
fn events_are_unsettled(alloc: Global, boxed: &BoxRun<'_>) -> Result<bool, Memory> {
    Ok(
        are_unsettled(alloc, boxed, 2, &[])?
            && are_unsettled(alloc, boxed, 4, &[StepId(1)])?
            && are_unsettled(alloc, boxed, 5, &[StepId(3)])?
            && are_unsettled(alloc, boxed, 7, &[StepId(3), StepId(4)])?
            && are_unsettled(alloc, boxed, 8, &[StepId(4)])?
            && are_unsettled(alloc, boxed, 9, &[])?,
    )
}

/// Whether what is certain is so after the ends of the windows of events, and not before.
fn values_are_certain(alloc: Global, boxed: &BoxRun<'_>) -> Result<bool, Memory> {
    Ok(
        is_certain(alloc, boxed, F, 1, true)?
            && is_certain(alloc, boxed, F, 2, false)?
            && is_certain(alloc, boxed, F, 5, true)?
            && is_certain(alloc, boxed, H, 7, false)?
            && is_certain(alloc, boxed, H, 8, true)?,
    )
}

#[test]
fn windows_of_events(rt: HostRuntime) -> Result<(), Fail> {
    let alloc = rt.alloc();
    let arena = Bump::new(alloc);
    let boxed = boxed_in(alloc, &arena, windows())?;
    assert!(rt; events_meet(&boxed), "5 is in three windows, 7 in two");
    assert!(rt; events_are_unsettled(alloc, &boxed)?, "5 to 8 and 7 to 9");
    assert!(rt; values_are_certain(alloc, &boxed)?, "f at 2 and 5, h at 8");
    assert!(rt; meeting(alloc, &boxed)?.is_none());
    Ok(())
}

/// Whether the two events of a box meet at a moment.
fn both_meet_at(alloc: Global, world: World, moment: u128) -> Result<bool, Memory> {
    let arena = Bump::new(alloc);
    let boxed = boxed_in(alloc, &arena, world)?;
    match meeting(alloc, &boxed)? {
        Some(found) => Ok(
            found.time == moment
                && matches!(found.one, PointOf::Timed(0 | 1))
                && matches!(found.other, PointOf::Timed(0 | 1)),
        ),
        None => Ok(false),
    }
}

#[test]
fn events_that_meet(rt: HostRuntime) {
    let added = between(1, 3, Effect::AddF);
    let dropped = between(3, 6, Effect::DropF);
    let both = under_both(one_step(false, see_f(9)), added, dropped);
    assert!(rt; matches!(both_meet_at(rt.alloc(), both, 3), Ok(true)));
    let fixed = under_both(
        no_steps(false),
        at(2, Effect::AddF),
        between(0, 4, Effect::DropF),
    );
    assert!(rt; matches!(both_meet_at(rt.alloc(), fixed, 2), Ok(true)));
}
