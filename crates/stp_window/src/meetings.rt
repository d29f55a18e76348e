//! Two points of a box that meet and interfere.

ghost use Rattle.std.specs.Prelude.{◌≡◌, ℕ, ◌+◌, ◌≤◌, ◌++◌, Some, List as Sequence, length, map, IfOk, MatchOption, OnOk};
ghost use Rattle.stp_base.specs.declared.limits.TheConstants.{MAX_EVENTS, MAX_STEPS, MAX_TIMED};
ghost use Rattle.stp_happen.specs.BoxViews.{plain_box};
ghost use Rattle.stp_happen.specs.Owners.{PlainBoxStep, PlainBoxTimed, step_owner, step_owners, timed_owners};
ghost use Rattle.stp_happen.specs.StepViews.{step_of, steps_of, timed_of};
ghost use Rattle.stp_window.specs.Met.{IsMeeting, NoneMeeting};
ghost use Rattle.stp_window.specs.OwnerWindows.{points_of_owner, points_of_owners};
ghost use Rattle.stp_window.specs.Points.{point_at, step_numbered};

use crate::places::meeting_places;
use crate::points::{Meeting, PointOf};
use crate::windows::windows_of;
use std::alloc::Global;
use stp_base::{List, Memory, StepId};
use stp_happen::{BoxRun, BoxStep, BoxTimed, by_owners};

/// Puts the points of a step at the end of a list.
fn push_of_step(
    points: &mut List<PointOf>,
    number: StepId,
    step: &BoxStep<'_>,
) -> Result<(), Memory>
    ensures { OnOk result ((steps : Sequence PlainBoxStep) (timed : Sequence PlainBoxTimed) → step_numbered steps number.0 ≡ Some (step_of step.now) →
        map (point_at steps timed) points.new ≡ map (point_at steps timed) points.old ++ map Some (points_of_owner (step_owner number.0 (step_of step.now)))) }
{
    points.push(PointOf::First(number))?;
    if step.last.is_some() {
        points.push(PointOf::Last(number))?;
    }
    Ok(())
}

/// Puts the points of these events of the environment at the end of a list.
fn push_of_timed(points: &mut List<PointOf>, timed: &[BoxTimed<'_>]) -> Result<(), Memory>
    requires { length timed.now ≤ MAX_TIMED + MAX_EVENTS }
    ensures { OnOk result ((steps : Sequence PlainBoxStep) →
        map (point_at steps (timed_of timed.now)) points.new ≡ map (point_at steps (timed_of timed.now)) points.old ++ map Some (points_of_owners (timed_owners (length steps + 1) (timed_of timed.now)))) }
{
    for place in 0..timed.len() {
        points.push(PointOf::Timed(place as u32))?;
    }
    Ok(())
}

/// Puts the points of these steps at the end of a list.
fn push_of_steps(points: &mut List<PointOf>, steps: &[BoxStep<'_>]) -> Result<(), Memory>
    requires { length steps.now ≤ MAX_STEPS }
    ensures { OnOk result ((timed : Sequence PlainBoxTimed) →
        map (point_at (steps_of steps.now) timed) points.new ≡ map (point_at (steps_of steps.now) timed) points.old ++ map Some (points_of_owners (step_owners 1 (steps_of steps.now)))) }
{
    let mut number = 0u32;
    for step in steps {
        number += 1;
        push_of_step(points, StepId(number), step)?;
    }
    Ok(())
}

/// The points of a box, in the order of its windows.
fn points_in(alloc: Global, boxed: &BoxRun<'_>) -> Result<List<PointOf>, Memory>
    ensures { IfOk result (λ r. map (point_at (steps_of boxed.now.steps) (timed_of boxed.now.timed)) r ≡ map Some (points_of_owners (plain_box boxed.now).owners)) }
{
    let mut points = List::new(alloc);
    push_of_steps(&mut points, boxed.steps.as_slice())?;
    push_of_timed(&mut points, boxed.timed.as_slice())?;
    Ok(points)
}

/// The later of two moments.
fn later(one: u128, other: u128) -> u128
    ensures within { (one ≤ result) × (other ≤ result) }
    ensures least { (t : ℕ) → one ≤ t → other ≤ t → result ≤ t }
{
    if one < other { other } else { one }
}

/// Two points of different steps that have a common moment, and whose events interfere, if there are any.
pub fn meeting(alloc: Global, boxed: &BoxRun<'_>) -> Result<Option<Meeting>, Memory>
    ensures { IfOk result (λ r. MatchOption r
        (NoneMeeting (steps_of boxed.now.steps) (timed_of boxed.now.timed))
        (IsMeeting (steps_of boxed.now.steps) (timed_of boxed.now.timed))) }
{
    let owned = by_owners(alloc, boxed)?;
    let windows = windows_of(alloc, owned.owners.as_slice())?;
    let Some(places) = meeting_places(alloc, &windows)? else {
        return Ok(None);
    };
    let points = points_in(alloc, boxed)?;
    let time = later(windows[places.one].low, windows[places.other].low);
    Ok(Some(Meeting {
        one: points.as_slice()[places.one],
        other: points.as_slice()[places.other],
        time,
    }))
}
