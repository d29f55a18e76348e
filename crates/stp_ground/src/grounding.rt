//! Ground actions of what is chosen.

ghost use Rattle.std.specs.Prelude.{◌≡◌, true, length, option_map, if◌then◌else◌, IfOk, IfSome, Some, None};
ghost use Rattle.stp_cond.specs.Events.{IsEventInRange};
ghost use Rattle.stp_cond.specs.Formulas.{view, Always};
ghost use Rattle.stp_cond.specs.Truth.{is_below};
ghost use Rattle.stp_task.specs.Actions.{action_of, happening_of};
ghost use Rattle.stp_task.specs.Durations.{plain_duration, lasts};
ghost use Rattle.stp_instance.specs.Views.{claim};
ghost use Rattle.stp_instance.specs.Effects.{written_atoms};
ghost use Rattle.stp_ground.specs.Ground.{action_by, happening, left_of};
ghost use Rattle.stp_task.specs.SoundTask.{IsActionInRange};
ghost use Rattle.stp_ground.specs.Views.{chosen_view};
ghost use Rattle.stp_ground.specs.Worlds.{problem_in};

use crate::chosen::Chosen;
use crate::world::World;
use bumpalo::Bump;
use std::alloc::Global;
use stp_base::Memory;
use stp_cond::{Cond, Event};
use stp_instance::{Ground, Written, fold_ground, reads_of, written_numbers};
use stp_tables::AtomTable;
use stp_task::{Duration, GroundAction};

/// What is left of a condition once what is static is known.
pub(crate) fn left_of<'a>(
    alloc: Global,
    arena: &'a Bump,
    world: &World<'_>,
    table: &AtomTable,
    ground: &Ground<'_>,
) -> Result<Cond<'a>, Memory>
    ensures left { IfOk result
        (λ r. view r ≡ left_of (problem_in world.now) table.now (claim ground.now)) }
    ensures in_range { IfOk result (λ r. is_below (length table.now) r ≡ true) }
{
    let cond = fold_ground(alloc, arena, table, &world.fluent, &world.facts, ground)?;
    Ok(cond)
}

/// The event that needs a condition, and adds and deletes some atoms.
fn happening<'a>(
    alloc: Global,
    arena: &'a Bump,
    world: &World<'_>,
    table: &AtomTable,
    ground: &Ground<'_>,
    adds: &[Written<'_>],
    dels: &[Written<'_>],
) -> Result<Event<'a>, Memory>
    ensures event { IfOk result
        (λ e. happening_of e ≡ happening (problem_in world.now) table.now (claim ground.now) (written_atoms adds.now) (written_atoms dels.now)) }
    ensures in_range { IfOk result (λ e. IsEventInRange (length table.now) e) }
{
    let reads = reads_of(alloc, arena, table, &world.fluent, ground)?;
    let left = left_of(alloc, arena, world, table, ground)?;
    let cond = arena.try_alloc(left)?;
    let (added, deleted) = written_numbers(alloc, arena, table, adds, dels)?;
    Ok(Event {
        cond,
        reads,
        adds: added,
        dels: deleted,
    })
}

/// Whether a duration takes time.
fn lasts(duration: Duration) -> bool
    ensures { result ≡ lasts (plain_duration duration) }
{
    match duration {
        Duration::Instant => false,
        Duration::Controlled(..) | Duration::Uncertain(..) => true,
    }
}

/// The event at the end, where the duration takes time.
fn finish_of<'a>(
    alloc: Global,
    arena: &'a Bump,
    world: &World<'_>,
    table: &AtomTable,
    chosen: &Chosen<'_>,
) -> Result<Option<Event<'a>>, Memory>
    ensures event { IfOk result
        (λ r. option_map happening_of r
        ≡ (if lasts (plain_duration chosen.now.duration) then Some (happening (problem_in world.now) table.now (claim chosen.now.end_cond) (written_atoms chosen.now.end_adds.now) (written_atoms chosen.now.end_dels.now)) else None)) }
    ensures in_range { IfOk result (λ r. IfSome r (IsEventInRange (length table.now))) }
{
    if !lasts(chosen.duration) {
        return Ok(None);
    }
    let event = happening(
        alloc,
        arena,
        world,
        table,
        &chosen.end_cond,
        chosen.end_adds,
        chosen.end_dels,
    )?;
    Ok(Some(event))
}

/// The condition over all. Where the duration takes no time, it is true.
fn over_of<'a>(
    alloc: Global,
    arena: &'a Bump,
    world: &World<'_>,
    table: &AtomTable,
    chosen: &Chosen<'_>,
) -> Result<Cond<'a>, Memory>
    ensures left { IfOk result
        (λ r. view r
        ≡ (if lasts (plain_duration chosen.now.duration) then left_of (problem_in world.now) table.now (claim chosen.now.over_all) else Always)) }
    ensures in_range { IfOk result (λ r. is_below (length table.now) r ≡ true) }
{
    if !lasts(chosen.duration) {
        return Ok(Cond::True);
    }
    let over = left_of(alloc, arena, world, table, &chosen.over_all)?;
    Ok(over)
}

/// The ground action of what is chosen. Its events read all fluent atoms of their conditions, those too that folding
/// drops. Where it takes no time, it has no finish, and its condition over all is true.
pub fn ground<'a>(
    alloc: Global,
    arena: &'a Bump,
    world: &World<'_>,
    table: &AtomTable,
    chosen: &Chosen<'a>,
) -> Result<GroundAction<'a>, Memory>
    ensures action { IfOk result
        (λ r. action_of r ≡ action_by (problem_in world.now) table.now (chosen_view chosen.now)) }
    ensures in_range { IfOk result (λ r. IsActionInRange (length table.now) r) }
{
    let start = happening(
        alloc,
        arena,
        world,
        table,
        &chosen.start_cond,
        chosen.start_adds,
        chosen.start_dels,
    )?;
    let finish = finish_of(alloc, arena, world, table, chosen)?;
    let left = over_of(alloc, arena, world, table, chosen)?;
    let over = arena.try_alloc(left)?;
    Ok(GroundAction {
        schema: chosen.schema,
        args: chosen.args,
        duration: chosen.duration,
        start,
        finish,
        over,
    })
}
