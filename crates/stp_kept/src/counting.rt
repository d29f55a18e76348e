//! Counts of bindings and of nodes, cut at one more than is accepted, so that no sum and no product wraps.

ghost use Rattle.std.specs.Prelude.{◌≡◌, ◌+◌, ◌*◌, ◌≤◌, map, IfOk};
ghost use Rattle.std.specs.List.{sum_by};
ghost use Rattle.stp_schema.specs.Formula.{formula};
ghost use Rattle.stp_schema.specs.Schemas.{schema_of};
ghost use Rattle.stp_problem.specs.Nodes.{bindings, nodes, nodes_of_parts, nodes_of_schema};
ghost use Rattle.stp_kept.specs.Counts.{bindings_of_schemas, cut, nodes_of_instances, size_in};
ghost use Rattle.stp_kept.specs.Views.{instance_views};

use crate::instance::Instance;
use bumpalo::Bump;
use stp_base::Memory;
use stp_base::limits::MAX_ACTION_NODES;
use stp_instance::Members;
use stp_schema::{Lifted, Schema, Timing};

const PAST: u64 = MAX_ACTION_NODES + 1;

/// A count, or one more than is accepted where it is greater.
fn cut(count: u64) -> u64
    ensures { result ≡ cut count }
{
    count.min(PAST)
}

/// The sum of two counts that are cut.
fn sum(one: u64, other: u64) -> u64
    requires one { one ≤ 10000001 }
    requires other { other ≤ 10000001 }
    ensures { result ≡ cut (one + other) }
{
    cut(one + other)
}

/// The product of two counts that are cut.
fn product(one: u64, other: u64) -> u64
    requires one { one ≤ 10000001 }
    requires other { other ≤ 10000001 }
    ensures { result ≡ cut (one * other) }
{
    cut(one * other)
}

/// How many objects a type has.
fn size_of<'a>(arena: &'a Bump, members: &mut Members<'a>, kind: u32) -> Result<u64, Memory>
    ensures size { IfOk result (λ r. r ≡ cut (size_in members.old kind)) }
    ensures members { members.new ≡ members.old }
{
    let objects = members.of(arena, kind)?;
    Ok(cut(objects.len() as u64))
}

/// How many bindings variables of these types have.
fn bindings<'a>(arena: &'a Bump, members: &mut Members<'a>, kinds: &[u32]) -> Result<u64, Memory>
    ensures count { IfOk result (λ r. r ≡ cut (bindings (size_in members.old) kinds.now)) }
    ensures members { members.new ≡ members.old }
{
    let mut count = 1;
    for kind in kinds {
        let size = size_of(arena, members, *kind)?;
        count = product(count, size);
    }
    Ok(count)
}

/// How many nodes a condition has once its quantifiers are expanded.
#[cycle(nodes)]
fn nodes<'a>(arena: &'a Bump, members: &mut Members<'a>, cond: &Lifted<'_>) -> Result<u64, Memory>
    ensures count { IfOk result (λ r. r ≡ cut (nodes (size_in members.old) (formula cond.now))) }
    ensures members { members.new ≡ members.old }
{
    match cond {
        Lifted::Atom(_) | Lifted::Same(..) => Ok(1),
        Lifted::Not(inner) => {
            let inside = nodes(arena, members, inner)?;
            Ok(sum(1, inside))
        }
        Lifted::And(parts) | Lifted::Or(parts) => {
            let inside = nodes_of_all(arena, members, parts)?;
            Ok(sum(1, inside))
        }
        Lifted::Every(kinds, body) | Lifted::Any(kinds, body) => {
            let each = nodes(arena, members, body)?;
            let count = bindings(arena, members, kinds)?;
            Ok(sum(1, product(count, each)))
        }
    }
}

/// How many nodes several conditions have in all.
#[cycle(nodes)]
fn nodes_of_all<'a>(
    arena: &'a Bump,
    members: &mut Members<'a>,
    conds: &[Lifted<'_>],
) -> Result<u64, Memory>
    ensures count { IfOk result (λ r. r ≡ cut (sum_by (λ c. nodes (size_in members.old) (formula c)) conds.now)) }
    ensures members { members.new ≡ members.old }
{
    let mut count = 0;
    for cond in conds {
        let one = nodes(arena, members, cond)?;
        count = sum(count, one);
    }
    Ok(count)
}

/// The nodes of a condition whose parts stand side by side.
fn part_nodes<'a>(
    arena: &'a Bump,
    members: &mut Members<'a>,
    cond: &Lifted<'_>,
) -> Result<u64, Memory>
    ensures count { IfOk result (λ r. r ≡ cut (nodes_of_parts (size_in members.old) (formula cond.now))) }
    ensures members { members.new ≡ members.old }
{
    if let Lifted::And(parts) = cond {
        let count = nodes_of_all(arena, members, parts)?;
        return Ok(count);
    }
    let count = nodes(arena, members, cond)?;
    Ok(count)
}

/// How many nodes the conditions of a schema have.
fn schema_nodes<'a>(
    arena: &'a Bump,
    members: &mut Members<'a>,
    schema: &Schema<'_>,
) -> Result<u64, Memory>
    ensures count { IfOk result (λ r. r ≡ cut (nodes_of_schema (size_in members.old) (schema_of schema.now))) }
    ensures members { members.new ≡ members.old }
{
    if matches!(schema.timing, Timing::Instant) {
        if !schema.has_condition {
            return Ok(0);
        }
        let count = nodes(arena, members, schema.start_cond)?;
        return Ok(count);
    }
    let start = part_nodes(arena, members, schema.start_cond)?;
    let over = part_nodes(arena, members, schema.over_all)?;
    let end = part_nodes(arena, members, schema.end_cond)?;
    Ok(sum(sum(start, over), end))
}

/// How many bindings these schemas have in all.
pub(crate) fn count_bindings<'a>(
    arena: &'a Bump,
    members: &mut Members<'a>,
    schemas: &[Schema<'_>],
) -> Result<u64, Memory>
    ensures count { IfOk result (λ r. r ≡ cut (bindings_of_schemas members.old (map schema_of schemas.now))) }
    ensures members { members.new ≡ members.old }
{
    let mut count = 0;
    for schema in schemas {
        let one = bindings(arena, members, schema.parameters)?;
        count = sum(count, one);
    }
    Ok(count)
}

/// How many nodes the schemas of these instances have in all.
pub(crate) fn count_nodes<'a>(
    arena: &'a Bump,
    members: &mut Members<'a>,
    instances: &[Instance<'_>],
) -> Result<u64, Memory>
    ensures count { IfOk result (λ r. r ≡ cut (nodes_of_instances members.old (instance_views instances.now))) }
    ensures members { members.new ≡ members.old }
{
    let mut count = 0;
    for instance in instances {
        let one = schema_nodes(arena, members, instance.schema)?;
        count = sum(count, one);
        if count == PAST {
            return Ok(count);
        }
    }
    Ok(count)
}
