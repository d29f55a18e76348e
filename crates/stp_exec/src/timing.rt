//! The times of placed steps and of the events of their problem.

ghost use Rattle.std.specs.Prelude.{◌≡◌, true, length, map, All, IfOk};
ghost use Rattle.stp_ground.specs.Worlds.{problem_in};
ghost use Rattle.stp_exec.specs.Timed.{plain_timed, is_lawful_timed};
ghost use Rattle.stp_exec.specs.Placed.{step_times, times_of};
ghost use Rattle.stp_exec.specs.Views.{plain_placed};
ghost use Rattle.stp_exec.specs.TimeViews.{plain_times};

use crate::placed::Placed;
use crate::{TimedStep, Times};
use std::alloc::Global;
use stp_base::Memory;
use stp_ground::World;

/// When these steps start, and how long they last.
fn timed(alloc: Global, placed: &[Placed<'_>]) -> Result<Vec<TimedStep>, Memory>
    ensures times { IfOk result (λ r. map plain_timed r.items ≡ step_times (map plain_placed placed.now)) }
    ensures count { IfOk result (λ r. length r.items ≡ length placed.now) }
    ensures lawful { IfOk result (λ r. All (λ step. is_lawful_timed (plain_timed step) ≡ true) r.items) }
{
    let mut times = Vec::new(alloc);
    for step in placed {
        times.push(step.timed)?;
    }
    Ok(times)
}

/// When these steps start and how long they last, and when the events of the problem come.
pub(crate) fn times_of<'a>(
    alloc: Global,
    world: &World<'a>,
    placed: &[Placed<'_>],
) -> Result<Times<'a>, Memory>
    ensures times { IfOk result (λ r. plain_times r ≡ times_of (problem_in world.now) (map plain_placed placed.now)) }
    ensures count { IfOk result (λ r. length r.steps.items ≡ length placed.now) }
{
    let steps = timed(alloc, placed)?;
    Ok(Times {
        steps,
        events: world.problem.timed,
    })
}
