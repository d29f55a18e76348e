//! The kept instances of schemas.

ghost use Rattle.std.specs.Prelude.{◌≡◌, ◌<◌, ◌≤◌, ◌^◌, ◌++◌, ◌∷◌, [], MatchOption, flat_map, map, length, IfOk, OnOk};
ghost use Rattle.stp_base.specs.declared.limits.TheConstants.{MAX_ACTIONS};
ghost use Rattle.stp_schema.specs.Formula.{formula};
ghost use Rattle.stp_schema.specs.Schemas.{schema_of};
ghost use Rattle.stp_instance.specs.Bindings.{numbers_of};
ghost use Rattle.stp_instance.specs.Expanded.{expanded};
ghost use Rattle.stp_ground.specs.Problems.{below};
ghost use Rattle.stp_ground.specs.Worlds.{problem_in};
ghost use Rattle.stp_kept.specs.Settled.{folds_to_false};
ghost use Rattle.stp_kept.specs.Instances.{are_possible, kept_from, kept_of_schema, kept_under, kept_with};
ghost use Rattle.stp_kept.specs.Views.{instance_views, Lists};

use crate::instance::Instance;
use crate::settling::{Statics, is_no, settle};
use bumpalo::Bump;
use std::alloc::Global;
use stp_base::limits::MAX_ACTIONS;
use stp_base::{List, Memory, ObjectId};
use stp_ground::World;
use stp_instance::duration;
use stp_schema::{Lifted, Schema};

/// A schema with its number.
#[derive(Clone, Copy)]
struct Row<'a> {
    number: u32,
    schema: &'a Schema<'a>,
}

/// Whether what is static makes a condition false under a binding.
fn is_refuted<'a>(
    alloc: Global,
    arena: &'a Bump,
    world: &mut World<'a>,
    binding: &mut Vec<ObjectId>,
    cond: &Lifted<'_>,
) -> Result<bool, Memory>
    ensures value { IfOk result
        (λ r. r ≡ folds_to_false (problem_in world.old) (expanded (below (problem_in world.old)) (numbers_of binding.old.items) (formula cond.now))) }
    ensures binding { OnOk result (numbers_of binding.new.items ≡ numbers_of binding.old.items) }
    ensures same { problem_in world.new ≡ problem_in world.old }
{
    let statics = Statics {
        fluent: &world.fluent,
        facts: &world.facts,
    };
    let value = settle(alloc, arena, &statics, &mut world.members, binding, cond)?;
    Ok(is_no(value))
}

/// Whether what is static makes none of a schema's conditions false under a binding.
fn are_possible<'a>(
    alloc: Global,
    arena: &'a Bump,
    world: &mut World<'a>,
    binding: &mut Vec<ObjectId>,
    schema: &Schema<'_>,
) -> Result<bool, Memory>
    ensures value { IfOk result
        (λ r. r ≡ are_possible (problem_in world.old) (schema_of schema.now) (numbers_of binding.old.items)) }
    ensures binding { OnOk result (numbers_of binding.new.items ≡ numbers_of binding.old.items) }
    ensures same { problem_in world.new ≡ problem_in world.old }
{
    if is_refuted(alloc, arena, world, binding, schema.start_cond)? {
        return Ok(false);
    }
    if is_refuted(alloc, arena, world, binding, schema.over_all)? {
        return Ok(false);
    }
    let refuted = is_refuted(alloc, arena, world, binding, schema.end_cond)?;
    Ok(!refuted)
}

/// Puts the instance of a schema under a binding at the end, where it is kept.
fn put_kept<'a>(
    alloc: Global,
    arena: &'a Bump,
    world: &mut World<'a>,
    binding: &mut Vec<ObjectId>,
    row: &Row<'a>,
    out: &mut List<Instance<'a>>,
) -> Result<(), Memory>
    ensures out { OnOk result
        (instance_views out.new ≡ instance_views out.old ++ kept_under (problem_in world.old) row.now.number (schema_of row.now.schema.now) (numbers_of binding.old.items)) }
    ensures binding { OnOk result (numbers_of binding.new.items ≡ numbers_of binding.old.items) }
    ensures same { problem_in world.new ≡ problem_in world.old }
{
    let Some(lasting) = duration(alloc, &world.values, binding, &row.schema.timing)? else {
        return Ok(());
    };
    if !are_possible(alloc, arena, world, binding, row.schema)? {
        return Ok(());
    }
    let args = arena.try_alloc_slice_copy(binding)?;
    out.push(Instance {
        number: row.number,
        schema: row.schema,
        args,
        duration: lasting,
    })?;
    Ok(())
}

/// Puts the kept instances of a schema whose objects are those of a binding and one more, and go on with objects of these
/// types, at the end; or there are more in all than are accepted.
#[cycle(list)]
fn list_with<'a>(
    alloc: Global,
    arena: &'a Bump,
    world: &mut World<'a>,
    binding: &mut Vec<ObjectId>,
    row: &Row<'a>,
    object: ObjectId,
    kinds: &[u32],
    out: &mut List<Instance<'a>>,
) -> Result<bool, Memory>
    ensures lists { IfOk result
        (λ r. Lists r (instance_views out.old) (instance_views out.new) (kept_with (problem_in world.old) row.now.number (schema_of row.now.schema.now) (numbers_of binding.old.items ++ object.0 ∷ []) kinds.now)) }
    ensures binding { OnOk result (numbers_of binding.new.items ≡ numbers_of binding.old.items) }
    ensures same { problem_in world.new ≡ problem_in world.old }
{
    let mark = binding.len();
    binding.push(object)?;
    let listed = list(alloc, arena, world, binding, row, kinds, out)?;
    binding.truncate(mark);
    Ok(listed)
}

/// The same with each of these objects as the next.
#[cycle(list)]
fn list_each<'a>(
    alloc: Global,
    arena: &'a Bump,
    world: &mut World<'a>,
    binding: &mut Vec<ObjectId>,
    row: &Row<'a>,
    objects: &[ObjectId],
    kinds: &[u32],
    out: &mut List<Instance<'a>>,
) -> Result<bool, Memory>
    ensures lists { IfOk result
        (λ r. Lists r (instance_views out.old) (instance_views out.new) (flat_map (λ o. kept_with (problem_in world.old) row.now.number (schema_of row.now.schema.now) (numbers_of binding.old.items ++ o.0 ∷ []) kinds.now) objects.now)) }
    ensures binding { OnOk result (numbers_of binding.new.items ≡ numbers_of binding.old.items) }
    ensures same { problem_in world.new ≡ problem_in world.old }
{
    for object in objects {
        let listed = list_with(alloc, arena, world, binding, row, *object, kinds, out)?;
        if !listed {
            return Ok(false);
        }
    }
    Ok(out.as_slice().len() <= MAX_ACTIONS as usize)
}

/// Puts the kept instances of a schema whose objects begin with those of a binding and go on with objects of these types
/// at the end; or there are more in all than are accepted.
#[cycle(list)]
fn list<'a>(
    alloc: Global,
    arena: &'a Bump,
    world: &mut World<'a>,
    binding: &mut Vec<ObjectId>,
    row: &Row<'a>,
    kinds: &[u32],
    out: &mut List<Instance<'a>>,
) -> Result<bool, Memory>
    ensures lists { IfOk result
        (λ r. Lists r (instance_views out.old) (instance_views out.new) (kept_with (problem_in world.old) row.now.number (schema_of row.now.schema.now) (numbers_of binding.old.items) kinds.now)) }
    ensures binding { OnOk result (numbers_of binding.new.items ≡ numbers_of binding.old.items) }
    ensures same { problem_in world.new ≡ problem_in world.old }
{
    let [kind, rest @ ..] = kinds else {
        put_kept(alloc, arena, world, binding, row, out)?;
        return Ok(out.as_slice().len() <= MAX_ACTIONS as usize);
    };
    let objects = world.members.of(arena, *kind)?;
    let listed = list_each(alloc, arena, world, binding, row, objects, rest, out)?;
    Ok(listed)
}

/// Puts the kept instances of a schema at the end; or there are more in all than are accepted.
fn list_schema<'a>(
    alloc: Global,
    arena: &'a Bump,
    world: &mut World<'a>,
    row: &Row<'a>,
    out: &mut List<Instance<'a>>,
) -> Result<bool, Memory>
    ensures lists { IfOk result
        (λ r. Lists r (instance_views out.old) (instance_views out.new) (kept_of_schema (problem_in world.old) row.now.number (schema_of row.now.schema.now))) }
    ensures same { problem_in world.new ≡ problem_in world.old }
{
    let mut binding = Vec::new(alloc);
    let listed = list(
        alloc,
        arena,
        world,
        &mut binding,
        row,
        row.schema.parameters,
        out,
    )?;
    Ok(listed)
}

/// The kept instances of these schemas, the first of which has the number 0, in order; or nothing where there are more
/// than are accepted.
pub(crate) fn list_all<'a>(
    alloc: Global,
    arena: &'a Bump,
    world: &mut World<'a>,
    schemas: &'a [Schema<'a>],
) -> Result<Option<List<Instance<'a>>>, Memory>
    requires { length schemas.now < 2 ^ 32 }
    ensures kept { IfOk result
        (λ r. MatchOption r (MAX_ACTIONS < length (kept_from (problem_in world.old) 0 (map schema_of schemas.now))) (λ list. (instance_views list ≡ kept_from (problem_in world.old) 0 (map schema_of schemas.now)) × (length (instance_views list) ≤ MAX_ACTIONS))) }
    ensures same { problem_in world.new ≡ problem_in world.old }
{
    let mut out = List::new(alloc);
    let mut number = 0;
    for schema in schemas {
        let row = Row { number, schema };
        if !list_schema(alloc, arena, world, &row, &mut out)? {
            return Ok(None);
        }
        number += 1;
    }
    Ok(Some(out))
}
