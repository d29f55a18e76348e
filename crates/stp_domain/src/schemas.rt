//! The actions of a domain: the fourth phase of reading.

ghost use Rattle.std.specs.Prelude.{◌≡◌, map, is_some, IfOk};
ghost use Rattle.stp_refusal.specs.Read.{IsRead};
ghost use Rattle.stp_domain_parts.specs.Views.{action_of};
ghost use Rattle.stp_schema.specs.Known.{known};
ghost use Rattle.stp_schema.specs.Schemas.{schema_of, schema_names_of};
ghost use Rattle.stp_domain_tables.specs.ActionRows.{action_shape_of, row_names_of};
ghost use Rattle.stp_condition.specs.Whole.{texts_of, scope_with};
ghost use Rattle.stp_domain.specs.BodyViews.{body_of};
ghost use Rattle.stp_domain.specs.Schemas.{schema_with, schema_read, schemas_read};

use crate::body::{Body, read_body};
use bumpalo::Bump;
use bumpalo::collections::into_bump_slice;
use std::alloc::Global;
use stp_base::Memory;
use stp_condition::Scope;
use stp_domain_parts::ActionParts;
use stp_domain_tables::ActionRow;
use stp_refusal::Offence;
use stp_schema::{Declared, Objects, Schema};

/// The parameters of an action, as variables.
fn parameters_of<'a>(alloc: Global, names: &[&'a [u8]], kinds: &[u32]) -> Result<Scope<'a>, Memory>
    ensures { IfOk result (λ r. r ≡ scope_with (texts_of names.now) kinds.now) }
{
    let mut scope = Scope::new(alloc);
    let mut rest = kinds;
    for name in names {
        let [kind, tail @ ..] = rest else {
            return Ok(scope);
        };
        scope.push(name, *kind)?;
        rest = tail;
    }
    Ok(scope)
}

/// Whether a condition stands in the text of an action.
fn has_condition(action: &ActionParts<'_>) -> bool
    ensures { result ≡ is_some (action_of action.now).condition }
{
    action.condition.is_some()
}

/// A schema, whose conditions are put into the arena.
fn schema_from<'a>(
    arena: &'a Bump,
    name: &'a [u8],
    parameters: &'a [u32],
    has_condition: bool,
    body: Body<'a>,
) -> Result<Schema<'a>, Memory>
    ensures schema { IfOk result
        (λ r. schema_of r ≡ schema_with name.entry.now parameters.entry.now has_condition (body_of body.entry)) }
    ensures name { IfOk result (λ r. r.name.now ≡ name.entry.now) }
{
    let start_cond = arena.try_alloc(body.start_cond)?;
    let over_all = arena.try_alloc(body.over_all)?;
    let end_cond = arena.try_alloc(body.end_cond)?;
    Ok(Schema {
        name,
        parameters,
        timing: body.timing,
        has_condition,
        start_cond,
        over_all,
        end_cond,
        start_adds: body.start.adds,
        start_dels: body.start.dels,
        end_adds: body.end.adds,
        end_dels: body.end.dels,
    })
}

/// The schema of an action.
fn read_schema<'a>(
    alloc: Global,
    arena: &'a Bump,
    declared: &Declared<'_>,
    objects: &Objects<'_>,
    row: &ActionRow<'a>,
    first: &mut Option<Offence>,
) -> Result<Schema<'a>, Memory>
    ensures value { IfOk result
        (λ r. IsRead first.old first.new (schema_of r)
        (schema_read (known declared.now objects.now.rows.now) (action_shape_of row.now))) }
    ensures name { IfOk result (λ r. r.name.now ≡ row.now.action.name.now) }
{
    let mut scope = parameters_of(alloc, row.names, row.kinds)?;
    let action = row.action;
    let body = read_body(alloc, arena, declared, objects, &mut scope, &action, first)?;
    let conditioned = has_condition(&action);
    let schema = schema_from(arena, action.name, row.kinds, conditioned, body)?;
    Ok(schema)
}

/// The schemas of actions, in order.
pub fn read_schemas<'a>(
    alloc: Global,
    arena: &'a Bump,
    declared: &Declared<'_>,
    objects: &Objects<'_>,
    rows: &[ActionRow<'a>],
    first: &mut Option<Offence>,
) -> Result<&'a [Schema<'a>], Memory>
    ensures value { IfOk result
        (λ r. IsRead first.old first.new (map schema_of r.now)
        (schemas_read (known declared.now objects.now.rows.now) (map action_shape_of rows.now))) }
    ensures names { IfOk result (λ r. schema_names_of r.now ≡ row_names_of rows.now) }
{
    let mut schemas = Vec::new(arena);
    for row in rows {
        let schema = read_schema(alloc, arena, declared, objects, row, first)?;
        schemas.push(schema)?;
    }
    Ok(into_bump_slice(schemas))
}
