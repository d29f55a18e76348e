//! The same box on a finer grid.

ghost use Rattle.std.specs.Prelude.{◌≡◌, ℕ, ◌*◌, ◌^◌, ◌<◌, ◌≤◌, map, All, IfOk};
ghost use Rattle.stp_base.specs.declared.limits.TheConstants.{MAX_GRID};
ghost use Rattle.stp_happen.specs.Boxes.{finer_box};
ghost use Rattle.stp_happen.specs.BoxViews.{plain_box};
ghost use Rattle.stp_happen.specs.Owners.{finer_step, finer_timed};
ghost use Rattle.stp_happen.specs.SoundBox.{IsBoxStep, IsBoxTimed};
ghost use Rattle.stp_happen.specs.StepViews.{plain_timed, step_of, steps_of, timed_of};

use crate::boxes::{BoxRun, BoxStep, BoxTimed};
use std::alloc::Global;
use stp_base::{List, Memory};

/// The same step on a grid that is so many times as fine.
fn refined_step<'a>(step: &BoxStep<'a>, factor: u128) -> BoxStep<'a>
    requires factor { (0 < factor) × (factor < 2 ^ 32) }
    requires start { step.now.start < 2 ^ 64 }
    requires low { step.now.low < 2 ^ 64 }
    requires high { step.now.high < 2 ^ 64 }
    ensures same { step_of result ≡ finer_step factor (step_of step.now) }
    ensures in_range { (grid n : ℕ) → IsBoxStep grid n step.now → IsBoxStep (grid * factor) n result }
{
    BoxStep {
        start: factor * step.start,
        low: factor * step.low,
        high: factor * step.high,
        uncertain: step.uncertain,
        key: step.key,
        first: step.first,
        last: step.last,
        over: step.over,
    }
}

/// The same steps on a grid that is so many times as fine.
fn refined_steps<'a>(
    alloc: Global,
    steps: &[BoxStep<'a>],
    factor: u128,
) -> Result<List<BoxStep<'a>>, Memory>
    requires factor { (0 < factor) × (factor < 2 ^ 32) }
    requires small { All (λ s. (s.start < 2 ^ 64) × (s.low < 2 ^ 64) × (s.high < 2 ^ 64)) steps.now }
    ensures same { IfOk result (λ r. steps_of r ≡ map (finer_step factor) (steps_of steps.now)) }
    ensures in_range { IfOk result (λ r. (grid n : ℕ) → All (IsBoxStep grid n) steps.now → All (IsBoxStep (grid * factor) n) r) }
{
    let mut refined = List::new(alloc);
    for step in steps {
        refined.push(refined_step(step, factor))?;
    }
    Ok(refined)
}

/// The same event on a grid that is so many times as fine.
fn refined_event<'a>(timed: &BoxTimed<'a>, factor: u128) -> BoxTimed<'a>
    requires factor { (0 < factor) × (factor < 2 ^ 32) }
    requires low { timed.now.low < 2 ^ 64 }
    requires high { timed.now.high < 2 ^ 64 }
    ensures same { plain_timed result ≡ finer_timed factor (plain_timed timed.now) }
    ensures in_range { (grid n : ℕ) → IsBoxTimed grid n timed.now → IsBoxTimed (grid * factor) n result }
{
    BoxTimed {
        low: factor * timed.low,
        high: factor * timed.high,
        uncertain: timed.uncertain,
        event: timed.event,
    }
}

/// The same events on a grid that is so many times as fine.
fn refined_events<'a>(
    alloc: Global,
    timed: &[BoxTimed<'a>],
    factor: u128,
) -> Result<List<BoxTimed<'a>>, Memory>
    requires factor { (0 < factor) × (factor < 2 ^ 32) }
    requires small { All (λ e. (e.low < 2 ^ 64) × (e.high < 2 ^ 64)) timed.now }
    ensures same { IfOk result (λ r. timed_of r ≡ map (finer_timed factor) (timed_of timed.now)) }
    ensures in_range { IfOk result (λ r. (grid n : ℕ) → All (IsBoxTimed grid n) timed.now → All (IsBoxTimed (grid * factor) n) r) }
{
    let mut refined = List::new(alloc);
    for event in timed {
        refined.push(refined_event(event, factor))?;
    }
    Ok(refined)
}

/// The same box on a grid that is so many times as fine.
pub fn refine<'a>(alloc: Global, boxed: &BoxRun<'a>, factor: u128) -> Result<BoxRun<'a>, Memory>
    requires factor { 1 ≤ factor }
    requires grid { boxed.now.grid * factor ≤ MAX_GRID }
    ensures same { IfOk result (λ r. plain_box r ≡ finer_box factor (plain_box boxed.now)) }
    ensures grid { IfOk result (λ r. r.grid ≡ boxed.now.grid * factor) }
{
    let steps = refined_steps(alloc, boxed.steps.as_slice(), factor)?;
    let timed = refined_events(alloc, boxed.timed.as_slice(), factor)?;
    let initial = boxed.initial.copy(alloc)?;
    let grid = boxed.grid * factor;
    Ok(BoxRun {
        grid,
        steps,
        timed,
        initial,
        goal: boxed.goal,
    })
}
