//! The boxes of plans.

ghost use Rattle.std.specs.Prelude.{◌≡◌, ◌≢◌, ◌≤◌, true, false, length, map, Some, None, All, IfOk, MatchResult, Ok, Err};
ghost use Rattle.stp_base.specs.declared.limits.TheConstants.{MAX_GRID, MAX_STEPS};
ghost use Rattle.stp_frac.specs.Fractions.{is_below_zero};
ghost use Rattle.stp_schema.specs.Timed.{timed_facts_of};
ghost use Rattle.stp_schema.specs.Views.{problem_of};
ghost use Rattle.stp_plan.specs.Views.{plain_plan};
ghost use Rattle.stp_ground.specs.Worlds.{problem_in};
ghost use Rattle.stp_exec.specs.Timed.{plain_timed, base_grid, event_lies_on};
ghost use Rattle.stp_exec.specs.TimeViews.{plain_times};
ghost use Rattle.stp_happen.specs.BoxViews.{plain_box};
ghost use Rattle.stp_exec.specs.Times.{IsTimely};
ghost use Rattle.stp_exec.specs.Placed.{times_of};
ghost use Rattle.stp_exec.specs.Plans.{grid_of_plan, box_on, box_of_plan};
ghost use Rattle.stp_exec.specs.Boxed.{beyond, beyond_limits, box_or_fault};
ghost use Rattle.stp_exec.specs.Views.{plain_placed};

use crate::boxed_plan::BoxedPlan;
use crate::events::box_events;
use crate::fault::ExecFault;
use crate::numbering::number_plan;
use crate::placed::Placed;
use crate::placing::place;
use crate::steps::box_steps;
use crate::timing::times_of;
use crate::{Times, first_late, grid_of};
use bumpalo::Bump;
use std::alloc::Global;
use stp_base::Memory;
use stp_ground::{World, goal_in, initial_row};
use stp_happen::BoxRun;
use stp_plan::Plan;
use stp_schema::Problem;

/// The base grid of times, or the first limit that they go beyond.
fn grid_within(times: &Times<'_>) -> Result<u128, ExecFault>
    requires { length times.now.steps.items ≤ MAX_STEPS }
    ensures limits { MatchResult result
        (λ _. beyond (plain_times times.now) ≡ None)
        (λ fault. beyond (plain_times times.now) ≡ Some fault) }
    ensures base { IfOk result (λ grid. grid ≡ base_grid (plain_times times.now)) }
    ensures low { IfOk result (λ grid. 1 ≤ grid) }
    ensures high { IfOk result (λ grid. grid ≤ MAX_GRID) }
    ensures timely { IfOk result (λ grid. All (λ step. IsTimely grid (plain_timed step)) times.now.steps.items) }
    ensures lie { IfOk result (λ grid. All (λ e. event_lies_on grid e ≡ true) (timed_facts_of times.now.events.now)) }
{
    let Some(grid) = grid_of(times) else {
        return Err(ExecFault::GridTooFine);
    };
    if let Some(step) = first_late(grid, &times.steps) {
        return Err(ExecFault::TimeTooLarge(step));
    }
    Ok(grid)
}

/// The box of placed steps on a grid on which they and the events of the problem lie.
fn boxed<'a>(
    alloc: Global,
    arena: &'a Bump,
    world: &mut World<'a>,
    grid: u128,
    placed: &[Placed<'a>],
) -> Result<BoxRun<'a>, Memory>
    requires few { length placed.now ≤ MAX_STEPS }
    requires low { 1 ≤ grid }
    requires high { grid ≤ MAX_GRID }
    requires timely { All (λ s. IsTimely grid (plain_timed s.timed)) placed.now }
    requires lie { All (λ e. event_lies_on grid e ≡ true) (problem_in world.old).timed }
    ensures grid { IfOk result (λ b. b.grid ≡ grid) }
    ensures stands { IfOk result (λ b. plain_box b ≡ box_on grid (problem_in world.old) (map plain_placed placed.now)) }
    ensures same { problem_in world.new ≡ problem_in world.old }
{
    let table = number_plan(alloc, arena, world, placed)?;
    let left = goal_in(alloc, arena, world, &table)?;
    let goal = arena.try_alloc(left)?;
    let initial = initial_row(alloc, world, &table)?;
    let steps = box_steps(alloc, arena, world, &table, grid, placed)?;
    let timed = box_events(alloc, arena, world, &table, grid)?;
    Ok(BoxRun {
        grid,
        steps,
        timed,
        initial,
        goal,
    })
}

/// The box of placed steps on their base grid and their times, where the grid has at most 999,999,999 moments in a unit
/// of time, and no step starts, or may end, after 999,999,999.
pub fn box_placed<'a>(
    alloc: Global,
    arena: &'a Bump,
    world: &mut World<'a>,
    placed: &[Placed<'a>],
) -> Result<BoxedPlan<'a>, ExecFault>
    requires { length placed.now ≤ MAX_STEPS }
    ensures limits { MatchResult result
        (λ _. beyond_limits (problem_in world.old) (map plain_placed placed.now) ≡ None)
        (λ fault. fault ≢ ExecFault.Memory → beyond_limits (problem_in world.old) (map plain_placed placed.now) ≡ Some fault) }
    ensures grid { IfOk result (λ b. b.boxed.grid ≡ grid_of_plan (problem_in world.old) (map plain_placed placed.now)) }
    ensures high { IfOk result (λ b. b.boxed.grid ≤ MAX_GRID) }
    ensures stands { IfOk result (λ b. plain_box b.boxed ≡ box_of_plan (problem_in world.old) (map plain_placed placed.now)) }
    ensures times { IfOk result (λ b. plain_times b.times ≡ times_of (problem_in world.old) (map plain_placed placed.now)) }
    ensures same { problem_in world.new ≡ problem_in world.old }
{
    let times = times_of(alloc, world, placed)?;
    let grid = grid_within(&times)?;
    let boxed = boxed(alloc, arena, world, grid, placed)?;
    Ok(BoxedPlan { boxed, times })
}

/// The box of a plan on its base grid, or the first refusal: a step's, that of a base grid of more than 999,999,999
/// moments in a unit of time, or that of the first step that starts, or may end, after 999,999,999.
pub fn box_of<'a>(
    alloc: Global,
    arena: &'a Bump,
    problem: &'a Problem<'a>,
    plan: &Plan,
) -> Result<BoxRun<'a>, ExecFault>
    requires few { length (plain_plan plan.now) ≤ MAX_STEPS }
    requires starts { All (λ s. is_below_zero s.at.top ≡ false) (plain_plan plan.now) }
    ensures { MatchResult result
        (λ b. box_or_fault (problem_of problem.now) (plain_plan plan.now) ≡ Ok (b.grid, plain_box b))
        (λ fault. fault ≢ ExecFault.Memory → box_or_fault (problem_of problem.now) (plain_plan plan.now) ≡ Err fault) }
{
    let mut world = World::new(alloc, problem)?;
    let placed = place(alloc, arena, &mut world, plan)?;
    let made = box_placed(alloc, arena, &mut world, placed.as_slice())?;
    Ok(made.boxed)
}
