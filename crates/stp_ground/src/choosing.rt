//! Choosing by a name and arguments.

ghost use Rattle.std.specs.Prelude.{◌≡◌, ◌≢◌, true, ok_or, IfOk, MatchResult, Ok, Err};
ghost use Rattle.stp_schema.specs.Formula.{formula};
ghost use Rattle.stp_schema.specs.Schemas.{schema_of, timing_of};
ghost use Rattle.stp_instance.specs.Bindings.{numbers_of};
ghost use Rattle.stp_task.specs.Durations.{is_lawful, plain_duration};
ghost use Rattle.stp_instance.specs.Timings.{duration_of};
ghost use Rattle.stp_instance.specs.Expanded.{expanded};
ghost use Rattle.stp_instance.specs.Typing.{objects_in};
ghost use Rattle.stp_instance.specs.Views.{claim};
ghost use Rattle.stp_ground.specs.Chosen.{chosen_by, chosen_under};
ghost use Rattle.stp_ground.specs.Views.{chosen_view};
ghost use Rattle.stp_ground.specs.Worlds.{problem_in};

use crate::arguments::{bound, named};
use crate::chosen::Chosen;
use crate::fault::InstanceFault;
use crate::world::World;
use bumpalo::Bump;
use std::alloc::Global;
use stp_base::{List, Memory, ObjectId, Text};
use stp_instance::{Ground, Members, Values, duration, expand, written_under};
use stp_schema::{Lifted, Schema, Timing};
use stp_task::Duration;

/// A condition under a binding.
pub(crate) fn expanded<'a>(
    alloc: Global,
    arena: &'a Bump,
    members: &mut Members<'a>,
    objects: &[ObjectId],
    cond: &Lifted<'_>,
) -> Result<Ground<'a>, Memory>
    ensures ground { IfOk result
        (λ r. claim r ≡ expanded (objects_in members.old) (numbers_of objects.now) (formula cond.now)) }
    ensures members { members.new ≡ members.old }
{
    let mut binding = Vec::from_slice(alloc, objects)?;
    let ground = expand(alloc, arena, members, &mut binding, cond)?;
    Ok(ground)
}

/// How long an action lasts under a binding.
fn lasting(
    alloc: Global,
    values: &Values<'_>,
    objects: &[ObjectId],
    timing: &Timing<'_>,
) -> Result<Duration, InstanceFault>
    ensures duration { MatchResult result
        (λ d. ok_or (duration_of values.now (numbers_of objects.now) (timing_of timing.now)) InstanceFault.NoDuration ≡ Ok (plain_duration d))
        (λ fault. fault ≢ InstanceFault.Memory → ok_or (duration_of values.now (numbers_of objects.now) (timing_of timing.now)) InstanceFault.NoDuration ≡ Err fault) }
    ensures lawful { IfOk result (λ d. is_lawful (plain_duration d) ≡ true) }
{
    let Some(found) = duration(alloc, values, objects, timing)? else {
        return Err(InstanceFault::NoDuration);
    };
    Ok(found)
}

/// A schema under a binding.
pub fn chosen_under<'a>(
    alloc: Global,
    arena: &'a Bump,
    members: &mut Members<'a>,
    number: u32,
    schema: &Schema<'_>,
    objects: &[ObjectId],
    lasting: Duration,
) -> Result<Chosen<'a>, Memory>
    requires { is_lawful (plain_duration lasting) ≡ true }
    ensures chosen { IfOk result
        (λ r. chosen_view r ≡ chosen_under (objects_in members.old) number (schema_of schema.now) (numbers_of objects.now) (plain_duration lasting)) }
    ensures members { members.new ≡ members.old }
{
    let args = arena.try_alloc_slice_copy(objects)?;
    let start_cond = expanded(alloc, arena, members, objects, schema.start_cond)?;
    let over_all = expanded(alloc, arena, members, objects, schema.over_all)?;
    let end_cond = expanded(alloc, arena, members, objects, schema.end_cond)?;
    let start_adds = written_under(arena, objects, schema.start_adds)?;
    let start_dels = written_under(arena, objects, schema.start_dels)?;
    let end_adds = written_under(arena, objects, schema.end_adds)?;
    let end_dels = written_under(arena, objects, schema.end_dels)?;
    Ok(Chosen {
        schema: number,
        args,
        duration: lasting,
        start_cond,
        over_all,
        end_cond,
        start_adds,
        start_dels,
        end_adds,
        end_dels,
    })
}

/// What a name and the names of arguments choose. It is refused for the first of these reasons: no schema has the name,
/// the number of arguments is wrong, one of them is no object or of a wrong type, the duration is not defined or lawful.
pub fn choose<'a>(
    alloc: Global,
    arena: &'a Bump,
    world: &mut World<'a>,
    name: &[u8],
    args: &List<Text>,
) -> Result<Chosen<'a>, InstanceFault>
    ensures chosen { MatchResult result
        (λ c. chosen_by (problem_in world.old) name.now args.now ≡ Ok (chosen_view c))
        (λ fault. fault ≢ InstanceFault.Memory → chosen_by (problem_in world.old) name.now args.now ≡ Err fault) }
    ensures same { problem_in world.new ≡ problem_in world.old }
{
    let Some((number, schema)) = named(world.problem, name) else {
        return Err(InstanceFault::UnknownAction);
    };
    let objects = bound(alloc, world.problem, schema.parameters, args.as_slice())?;
    let duration = lasting(alloc, &world.values, &objects, &schema.timing)?;
    let chosen = chosen_under(
        alloc,
        arena,
        &mut world.members,
        number,
        &schema,
        &objects,
        duration,
    )?;
    Ok(chosen)
}
