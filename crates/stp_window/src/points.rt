//! Points of a box, and whether two of them have a common moment.

ghost use Rattle.std.specs.Prelude.{◌≡◌, ◌↔◌, Some, IfSome, IsSome, IsTrue, is_some};
ghost use Rattle.stp_happen.specs.StepViews.{step_of, steps_of, timed_of};
ghost use Rattle.stp_window.specs.Points.{step_numbered, point_at, HaveMoment, IfBoth};
ghost use Rattle.stp_window.specs.Windows.{may_meet as may_meet_lem};

use crate::windows::{Bounds, bounds_meet};
use stp_base::StepId;
use stp_happen::{BoxRun, BoxStep};

/// The first event of a step, its last, or the event of the environment at this place, the first being at 0.
#[derive(Clone, Copy)]
pub enum PointOf {
    First(StepId),
    Last(StepId),
    Timed(u32),
}

/// Two points of different steps of a box whose events interfere, and a moment that lies in the windows of both.
#[derive(Clone, Copy)]
pub struct Meeting {
    pub one: PointOf,
    pub other: PointOf,
    pub time: u128,
}

/// The step with this number.
fn step_at<'s, 'a>(steps: &'s [BoxStep<'a>], number: StepId) -> &'s BoxStep<'a>
    requires { IsSome (step_numbered (steps_of steps.now) number.0) }
    ensures { step_numbered (steps_of steps.now) number.0 ≡ Some (step_of result.now) }
{
    &steps[number.0 as usize - 1]
}

/// Whether there is a step with this number.
fn is_numbered(steps: &[BoxStep<'_>], number: StepId) -> bool
    ensures { result ≡ is_some (step_numbered (steps_of steps.now) number.0) }
{
    1 <= number.0 && number.0 as usize <= steps.len()
}

/// Whether a box has a point.
pub fn is_there(boxed: &BoxRun<'_>, point: PointOf) -> bool
    ensures { result ≡ is_some (point_at (steps_of boxed.now.steps) (timed_of boxed.now.timed) point) }
{
    let steps = boxed.steps.as_slice();
    match point {
        PointOf::First(number) => is_numbered(steps, number),
        PointOf::Last(number) => {
            is_numbered(steps, number) && step_at(steps, number).last.is_some()
        }
        PointOf::Timed(place) => (place as usize) < boxed.timed.as_slice().len(),
    }
}

/// The least and the greatest moment of a point.
fn window_of(boxed: &BoxRun<'_>, point: PointOf) -> Bounds
    requires { IsSome (point_at (steps_of boxed.now.steps) (timed_of boxed.now.timed) point) }
    ensures { IfSome (point_at (steps_of boxed.now.steps) (timed_of boxed.now.timed) point) (λ p. (result.low ≡ p.low) × (result.high ≡ p.high)) }
{
    let steps = boxed.steps.as_slice();
    match point {
        PointOf::First(number) => {
            let step = step_at(steps, number);
            Bounds {
                low: step.start,
                high: step.start,
            }
        }
        PointOf::Last(number) => {
            let step = step_at(steps, number);
            Bounds {
                low: step.low,
                high: step.high,
            }
        }
        PointOf::Timed(place) => {
            let event = &boxed.timed.as_slice()[place as usize];
            Bounds {
                low: event.low,
                high: event.high,
            }
        }
    }
}

/// Whether a moment lies in the windows of two points, both ends of a window being in it.
pub fn may_meet(boxed: &BoxRun<'_>, one: PointOf, other: PointOf) -> bool
    requires one { IsSome (point_at (steps_of boxed.now.steps) (timed_of boxed.now.timed) one) }
    requires other { IsSome (point_at (steps_of boxed.now.steps) (timed_of boxed.now.timed) other) }
    ensures moment { IfBoth (point_at (steps_of boxed.now.steps) (timed_of boxed.now.timed) one) (point_at (steps_of boxed.now.steps) (timed_of boxed.now.timed) other) (λ p q. IsTrue result ↔ HaveMoment p q) }
    ensures windows { IfBoth (point_at (steps_of boxed.now.steps) (timed_of boxed.now.timed) one) (point_at (steps_of boxed.now.steps) (timed_of boxed.now.timed) other) (λ p q. result ≡ may_meet_lem p q) }
{
    bounds_meet(window_of(boxed, one), window_of(boxed, other))
}
