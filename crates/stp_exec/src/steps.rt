//! The steps of boxes.

ghost use Rattle.std.specs.Prelude.{◌≡◌, ◌≤◌, length, map, All, IfOk};
ghost use Rattle.stp_base.specs.declared.limits.TheConstants.{MAX_GRID, MAX_STEPS};
ghost use Rattle.stp_ground.specs.Worlds.{problem_in};
ghost use Rattle.stp_exec.specs.Held.{plain_held};
ghost use Rattle.stp_exec.specs.Timed.{plain_timed};
ghost use Rattle.stp_happen.specs.StepViews.{step_of, steps_of};
ghost use Rattle.stp_happen.specs.SoundBox.{IsBoxStep};
ghost use Rattle.stp_exec.specs.Times.{is_open, IsTimely};
ghost use Rattle.stp_exec.specs.Plans.{step_in};
ghost use Rattle.stp_exec.specs.Views.{plain_placed};

use crate::keys::key_of;
use crate::placed::Placed;
use crate::{Held, moments_on};
use bumpalo::Bump;
use std::alloc::Global;
use stp_base::{List, Memory};
use stp_ground::{World, ground};
use stp_happen::BoxStep;
use stp_tables::AtomTable;

/// Whether the environment chooses how long a step lasts.
fn is_open(held: Held) -> bool
    ensures { result ≡ is_open (plain_held held) }
{
    match held {
        Held::Instant => false,
        Held::Fixed(_) => false,
        Held::Open(_, _) => true,
    }
}

/// A step on a grid, over a table of atoms.
fn box_step<'a>(
    alloc: Global,
    arena: &'a Bump,
    world: &World<'_>,
    table: &AtomTable,
    grid: u128,
    placed: &[Placed<'a>],
    step: &Placed<'a>,
) -> Result<BoxStep<'a>, Memory>
    requires few { length placed.now ≤ MAX_STEPS }
    requires low { 1 ≤ grid }
    requires high { grid ≤ MAX_GRID }
    requires timely { IsTimely grid (plain_timed step.now.timed) }
    ensures stands { IfOk result (λ r. step_of r ≡ step_in (problem_in world.now) table.now grid (map plain_placed placed.now) (plain_placed step.now)) }
    ensures sound { IfOk result (λ r. IsBoxStep grid (length table.now) r) }
{
    let action = ground(alloc, arena, world, table, &step.chosen)?;
    let moments = moments_on(grid, &step.timed);
    let key = key_of(placed, step);
    let uncertain = is_open(step.timed.held);
    Ok(BoxStep {
        start: moments.start,
        low: moments.low,
        high: moments.high,
        uncertain,
        key,
        first: action.start,
        last: action.finish,
        over: action.over,
    })
}

/// All steps on a grid, over a table of atoms.
pub(crate) fn box_steps<'a>(
    alloc: Global,
    arena: &'a Bump,
    world: &World<'_>,
    table: &AtomTable,
    grid: u128,
    placed: &[Placed<'a>],
) -> Result<List<BoxStep<'a>>, Memory>
    requires few { length placed.now ≤ MAX_STEPS }
    requires low { 1 ≤ grid }
    requires high { grid ≤ MAX_GRID }
    requires timely { All (λ s. IsTimely grid (plain_timed s.timed)) placed.now }
    ensures stand { IfOk result (λ r. steps_of r ≡ map (step_in (problem_in world.now) table.now grid (map plain_placed placed.now)) (map plain_placed placed.now)) }
    ensures sound { IfOk result (λ r. All (IsBoxStep grid (length table.now)) r) }
    ensures few { IfOk result (λ r. length r ≤ MAX_STEPS) }
{
    let mut steps = List::new(alloc);
    for step in placed {
        steps.push(box_step(alloc, arena, world, table, grid, placed, step)?)?;
    }
    Ok(steps)
}
