//! The numbers of the atoms of a task.

ghost use Rattle.std.specs.Prelude.{◌≡◌, ◌<◌, nat_lt, false, MatchOption, map, length, IfOk};
ghost use Rattle.stp_base.specs.declared.limits.TheConstants.{MAX_ATOMS};
ghost use Rattle.stp_instance.specs.Numbered.{with_atoms};
ghost use Rattle.stp_ground.specs.Views.{chosen_view};
ghost use Rattle.stp_ground.specs.Worlds.{problem_in};
ghost use Rattle.stp_kept.specs.Instances.{chosen_of};
ghost use Rattle.stp_kept.specs.KeptTasks.{atoms_before, atoms_of_instances};
ghost use Rattle.stp_kept.specs.Views.{instance_view, instance_views};

use crate::instance::Instance;
use bumpalo::Bump;
use std::alloc::Global;
use stp_base::limits::MAX_ATOMS;
use stp_base::{List, Memory};
use stp_ground::{
    Chosen, World, chosen_under, number_chosen, number_events, number_goal, number_initial,
};
use stp_tables::AtomTable;

/// The conditions of an instance, expanded, and the atoms of its effects.
fn choose<'a>(
    alloc: Global,
    arena: &'a Bump,
    world: &mut World<'a>,
    instance: &Instance<'a>,
) -> Result<Chosen<'a>, Memory>
    ensures chosen { IfOk result
        (λ r. chosen_view r ≡ chosen_of (problem_in world.old) (instance_view instance.now)) }
    ensures same { problem_in world.new ≡ problem_in world.old }
{
    let chosen = chosen_under(
        alloc,
        arena,
        &mut world.members,
        instance.number,
        instance.schema,
        instance.args,
        instance.duration,
    )?;
    Ok(chosen)
}

/// The fluent atoms of a problem before those of its instances.
fn number_before<'a>(
    alloc: Global,
    arena: &'a Bump,
    world: &mut World<'a>,
) -> Result<AtomTable, Memory>
    ensures atoms { IfOk result (λ r. r ≡ atoms_before (problem_in world.old)) }
    ensures same { problem_in world.new ≡ problem_in world.old }
{
    let mut table = AtomTable::new(alloc);
    number_initial(world, &mut table)?;
    number_events(world, &mut table)?;
    number_goal(alloc, arena, world, &mut table)?;
    Ok(table)
}

/// Whether there are more atoms than are accepted.
fn are_too_many(table: &AtomTable) -> bool
    ensures { result ≡ nat_lt MAX_ATOMS (length table.now) }
{
    table.len() > MAX_ATOMS
}

/// Numbers the fluent atoms of instances in their order, as far as it is not sure that there are more than are accepted.
fn number_instances<'a>(
    alloc: Global,
    arena: &'a Bump,
    world: &mut World<'a>,
    table: &mut AtomTable,
    instances: &[Instance<'a>],
) -> Result<Option<List<Chosen<'a>>>, Memory>
    ensures numbered { IfOk result
        (λ r. MatchOption r (MAX_ATOMS < length (with_atoms table.old (atoms_of_instances (problem_in world.old) (instance_views instances.now)))) (λ list. (table.new ≡ with_atoms table.old (atoms_of_instances (problem_in world.old) (instance_views instances.now))) × (map chosen_view list ≡ map (chosen_of (problem_in world.old)) (instance_views instances.now)))) }
    ensures same { problem_in world.new ≡ problem_in world.old }
{
    let mut out = List::new(alloc);
    for instance in instances {
        let chosen = choose(alloc, arena, world, instance)?;
        number_chosen(world, table, &chosen)?;
        out.push(chosen)?;
        if are_too_many(table) {
            return Ok(None);
        }
    }
    Ok(Some(out))
}

/// A table of atoms, and what is chosen of instances.
#[derive(Drop)]
pub(crate) struct Numbered<'a> {
    pub(crate) table: AtomTable,
    pub(crate) chosen: List<Chosen<'a>>,
}

/// The fluent atoms of a problem and of these instances; or nothing where there are more than are accepted.
pub(crate) fn number_all<'a>(
    alloc: Global,
    arena: &'a Bump,
    world: &mut World<'a>,
    instances: &[Instance<'a>],
) -> Result<Option<Numbered<'a>>, Memory>
    ensures numbered { IfOk result
        (λ r. MatchOption r (MAX_ATOMS < length (with_atoms (atoms_before (problem_in world.old)) (atoms_of_instances (problem_in world.old) (instance_views instances.now)))) (λ n. (n.table ≡ with_atoms (atoms_before (problem_in world.old)) (atoms_of_instances (problem_in world.old) (instance_views instances.now))) × (map chosen_view n.chosen ≡ map (chosen_of (problem_in world.old)) (instance_views instances.now)) × (nat_lt MAX_ATOMS (length n.table) ≡ false))) }
    ensures same { problem_in world.new ≡ problem_in world.old }
{
    let mut table = number_before(alloc, arena, world)?;
    let Some(chosen) = number_instances(alloc, arena, world, &mut table, instances)? else {
        return Ok(None);
    };
    if are_too_many(&table) {
        return Ok(None);
    }
    Ok(Some(Numbered { table, chosen }))
}
