//! The task of a problem.

ghost use Rattle.std.specs.Prelude.{◌≡◌, ◌≢◌, ◌≤◌, ◌<◌, nat_lt, true, false, map, length, IfOk, IfSome, MatchOption, MatchResult, Ok, Err};
ghost use Rattle.std.specs.List.{list_any};
ghost use Rattle.stp_base.specs.declared.limits.TheConstants.{MAX_BINDINGS, MAX_ACTIONS, MAX_ACTION_NODES, MAX_ATOMS};
ghost use Rattle.stp_schema.specs.Timed.{is_chosen};
ghost use Rattle.stp_schema.specs.Views.{problem_of};
ghost use Rattle.stp_task.specs.Tasks.{plain_task};
ghost use Rattle.stp_ground.specs.Views.{chosen_view};
ghost use Rattle.stp_ground.specs.Worlds.{problem_in};
ghost use Rattle.stp_kept.specs.Counts.{binding_count, nodes_of_instances};
ghost use Rattle.stp_ground.specs.Typing.{typing_of};
ghost use Rattle.stp_kept.specs.Instances.{chosen_of, kept};
ghost use Rattle.stp_kept.specs.KeptTasks.{LieOn, refusal_of_instances, refusal_of_times, task_atoms, task_grid, task_of, task_over, task_or_fault, unless_refused};
ghost use Rattle.stp_kept.specs.Views.{instance_views};
ghost use Rattle.stp_kept.specs.Answers.{Answers};

use crate::actions::{ground_actions, ground_events, has_chosen};
use crate::counting::{count_bindings, count_nodes};
use crate::fault::GroundFault;
use crate::instance::Instance;
use crate::listing::list_all;
use crate::numbering::{Numbered, number_all};
use crate::timing::{first_too_long, grid_of_all};
use bumpalo::Bump;
use std::alloc::Global;
use stp_base::limits::{MAX_ACTION_NODES, MAX_BINDINGS};
use stp_base::{ActionId, List, Memory};
use stp_ground::{Chosen, World, goal_in, initial_row};
use stp_schema::Problem;
use stp_tables::AtomTable;
use stp_task::Task;

/// Whether the schemas have more typed bindings than are accepted.
fn have_too_many_bindings<'a>(arena: &'a Bump, world: &mut World<'a>) -> Result<bool, Memory>
    ensures value { IfOk result (λ r. r ≡ nat_lt MAX_BINDINGS (binding_count (problem_in world.old))) }
    ensures same { problem_in world.new ≡ problem_in world.old }
{
    let problem = world.problem;
    let count = count_bindings(arena, &mut world.members, problem.domain.schemas)?;
    Ok(count > MAX_BINDINGS)
}

/// Whether the schemas of instances have more nodes than are accepted.
fn have_too_many_nodes<'a>(
    arena: &'a Bump,
    world: &mut World<'a>,
    instances: &[Instance<'a>],
) -> Result<bool, Memory>
    ensures value { IfOk result
        (λ r. r ≡ nat_lt MAX_ACTION_NODES (nodes_of_instances (typing_of (problem_in world.old)) (instance_views instances.now))) }
    ensures same { problem_in world.new ≡ problem_in world.old }
{
    let count = count_nodes(arena, &mut world.members, instances)?;
    Ok(count > MAX_ACTION_NODES)
}

/// The kept instances of a problem, in order; or nothing where there are more than are accepted.
fn kept<'a>(
    alloc: Global,
    arena: &'a Bump,
    world: &mut World<'a>,
) -> Result<Option<List<Instance<'a>>>, Memory>
    ensures kept { IfOk result
        (λ r. MatchOption r (MAX_ACTIONS < length (kept (problem_in world.old))) (λ list. (instance_views list ≡ kept (problem_in world.old)) × (length (instance_views list) ≤ MAX_ACTIONS))) }
    ensures same { problem_in world.new ≡ problem_in world.old }
{
    let problem = world.problem;
    // a table of names has fewer than 2^32 of them, and there are as many schemas
    let _ = problem.domain.schema_names.len();
    list_all(alloc, arena, world, problem.domain.schemas)
}

/// The task over a table of atoms.
fn task_over<'a>(
    alloc: Global,
    arena: &'a Bump,
    world: &mut World<'a>,
    table: AtomTable,
    chosen: &[Chosen<'a>],
    grid: u128,
) -> Result<Task<'a>, Memory>
    requires all { map chosen_view chosen.now ≡ map (chosen_of (problem_in world.old)) (kept (problem_in world.old)) }
    requires fixed { list_any is_chosen (problem_in world.old).timed ≡ false }
    requires grid { grid ≡ task_grid (problem_in world.old) }
    ensures task { IfOk result (λ r. plain_task r ≡ task_over (problem_in world.old) table) }
    ensures grid { IfOk result (λ r. r.grid ≡ grid) }
{
    let problem = world.problem;
    let actions = ground_actions(alloc, arena, world, &table, chosen)?;
    let timed = ground_events(alloc, arena, &table, problem.timed)?;
    let initial = initial_row(alloc, world, &table)?;
    let goal = goal_in(alloc, arena, world, &table)?;
    let goal = arena.try_alloc(goal)?;
    Ok(Task {
        atoms: table,
        initial,
        actions,
        timed,
        goal,
        grid,
    })
}

/// The task of a problem whose kept instances and atoms are these; or the first refusal that comes of these two: an instance
/// may last too long; the grid is too fine.
fn task_of_atoms<'a>(
    alloc: Global,
    arena: &'a Bump,
    world: &mut World<'a>,
    instances: &[Instance<'a>],
    table: AtomTable,
    chosen: &[Chosen<'a>],
) -> Result<Task<'a>, GroundFault>
    requires fixed { list_any is_chosen (problem_in world.old).timed ≡ false }
    requires kept { instance_views instances.now ≡ kept (problem_in world.old) }
    requires few { length instances.now ≤ MAX_ACTIONS }
    requires table { table ≡ task_atoms (problem_in world.old) }
    requires chosen { map chosen_view chosen.now ≡ map (chosen_of (problem_in world.old)) (kept (problem_in world.old)) }
    ensures answer { Answers result (unless_refused (refusal_of_times (problem_in world.old)) (task_of (problem_in world.old))) }
    ensures lie { IfOk result (λ t. LieOn t.grid (problem_in world.old).timed) }
{
    if let Some(number) = first_too_long(instances) {
        return Err(GroundFault::DurationTooLarge(ActionId(number)));
    }
    let Some(grid) = grid_of_all(alloc, instances, world.problem.timed)? else {
        return Err(GroundFault::GridTooFine);
    };
    let task = task_over(alloc, arena, world, table, chosen, grid)?;
    Ok(task)
}

/// The task of a problem whose kept instances are these; or the first refusal that comes of these: there are too many nodes of
/// their schemas, atoms; an instance may last too long; the grid is too fine.
fn task_of_instances<'a>(
    alloc: Global,
    arena: &'a Bump,
    world: &mut World<'a>,
    instances: &[Instance<'a>],
) -> Result<Task<'a>, GroundFault>
    requires fixed { list_any is_chosen (problem_in world.old).timed ≡ false }
    requires kept { instance_views instances.now ≡ kept (problem_in world.old) }
    requires few { length instances.now ≤ MAX_ACTIONS }
    ensures answer { Answers result (unless_refused (refusal_of_instances (problem_in world.old)) (task_of (problem_in world.old))) }
    ensures lie { IfOk result (λ t. LieOn t.grid (problem_in world.old).timed) }
{
    if have_too_many_nodes(arena, world, instances)? {
        return Err(GroundFault::TooManyNodes);
    }
    let Some(numbered) = number_all(alloc, arena, world, instances)? else {
        return Err(GroundFault::TooManyAtoms);
    };
    let Numbered { table, chosen } = numbered;
    task_of_atoms(alloc, arena, world, instances, table, chosen.as_slice())
}

/// The task of a problem: its kept instances as ground actions in order, with the numbers of their atoms. Or the first of
/// these refusals: the environment chooses the time of an event; there are too many typed bindings, kept instances, nodes of
/// their schemas, atoms; a kept instance may last too long; the grid is too fine.
pub fn ground_all<'a>(
    alloc: Global,
    arena: &'a Bump,
    problem: &'a Problem<'a>,
) -> Result<Task<'a>, GroundFault>
    ensures answer { MatchResult result
        (λ t. task_or_fault (problem_of problem.now) ≡ Ok (plain_task t))
        (λ fault. fault ≢ GroundFault.Memory → task_or_fault (problem_of problem.now) ≡ Err fault) }
    ensures lie { IfOk result (λ t. LieOn t.grid (problem_of problem.now).timed) }
{
    if has_chosen(problem.timed) {
        return Err(GroundFault::UncontrollableEvent);
    }
    let mut world = World::new(alloc, problem)?;
    if have_too_many_bindings(arena, &mut world)? {
        return Err(GroundFault::TooManyBindings);
    }
    let Some(instances) = kept(alloc, arena, &mut world)? else {
        return Err(GroundFault::TooManyActions);
    };
    task_of_instances(alloc, arena, &mut world, instances.as_slice())
}
