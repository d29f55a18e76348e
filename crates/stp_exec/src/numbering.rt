//! The atoms of plans with their numbers.

ghost use Rattle.std.specs.Prelude.{◌≡◌, map, IfOk, OnOk};
ghost use Rattle.stp_instance.specs.Numbered.{with_atoms};
ghost use Rattle.stp_ground.specs.Worlds.{problem_in};
ghost use Rattle.stp_exec.specs.Plans.{atoms_of_plan, atoms_of_steps};
ghost use Rattle.stp_exec.specs.Views.{plain_placed};

use crate::placed::Placed;
use bumpalo::Bump;
use std::alloc::Global;
use stp_base::Memory;
use stp_ground::{World, number_chosen, number_events, number_goal, number_initial};
use stp_tables::AtomTable;

/// Numbers the fluent atoms of steps in their order.
fn number_steps(
    world: &World<'_>,
    table: &mut AtomTable,
    placed: &[Placed<'_>],
) -> Result<(), Memory>
    ensures { OnOk result (table.new ≡ with_atoms table.old (atoms_of_steps (problem_in world.now) (map plain_placed placed.now))) }
{
    for step in placed {
        number_chosen(world, table, &step.chosen)?;
    }
    Ok(())
}

/// The fluent atoms of a plan: what is true at first, then the events of the environment, the goal, and the steps.
pub(crate) fn number_plan<'a>(
    alloc: Global,
    arena: &'a Bump,
    world: &mut World<'a>,
    placed: &[Placed<'_>],
) -> Result<AtomTable, Memory>
    ensures atoms { IfOk result (λ r. r ≡ atoms_of_plan (problem_in world.old) (map plain_placed placed.now)) }
    ensures same { problem_in world.new ≡ problem_in world.old }
{
    let mut table = AtomTable::new(alloc);
    number_initial(world, &mut table)?;
    number_events(world, &mut table)?;
    number_goal(alloc, arena, world, &mut table)?;
    number_steps(world, &mut table, placed)?;
    Ok(table)
}
