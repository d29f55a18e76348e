//! Goals and actions that are too large once their quantifiers are expanded.

ghost use Rattle.std.specs.Prelude.{◌≡◌, ℕ, ◌<◌, ◌^◌, All, length, map, slice_index, None, Some, Err, OnOk};
ghost use Rattle.stp_refusal.specs.declared.code.Code.{Code as TheCode};
ghost use Rattle.stp_refusal.specs.Phases.{chosen};
ghost use Rattle.stp_refusal.specs.Read.{Finds};
ghost use Rattle.stp_schema.specs.Rows.{parents_of, thing_of};
ghost use Rattle.stp_schema.specs.Formula.{formula};
ghost use Rattle.stp_schema.specs.Schemas.{schema_of};
ghost use Rattle.stp_problem.specs.Sizes.{size_of};
ghost use Rattle.stp_problem.specs.Reading.{goal_wrong, actions_wrong, sizes_wrong};

use crate::{first_too_large, is_too_large, sizes};
use std::alloc::Global;
use stp_refusal::{Code, Offence, ReadFault, end_phase, note};
use stp_schema::{Domain, Lifted, Objects, Schema};

/// Looks for a goal with more expanded nodes than are accepted, where each type has so many objects.
fn judge_goal(sizes: &[u32], at: u32, goal: &Lifted<'_>, first: &mut Option<Offence>)
    ensures { Finds first.old first.new (goal_wrong (slice_index sizes.now) at (formula goal.now)) }
{
    if is_too_large(sizes, goal) {
        note(first, at, Code::P13);
    }
}

/// Looks for an action whose conditions have more expanded nodes than are accepted, where each type has so many objects.
fn judge_actions(sizes: &[u32], schemas: &[Schema<'_>], first: &mut Option<Offence>)
    requires { length schemas.now < 2 ^ 32 }
    ensures { Finds first.old first.new (actions_wrong (slice_index sizes.now) (map schema_of schemas.now)) }
{
    if let Some(number) = first_too_large(sizes, schemas) {
        note(first, number, Code::P14);
    }
}

/// Refuses a goal that is too large, at this place, and then the first action that is.
pub fn judge_sizes(
    alloc: Global,
    domain: &Domain<'_>,
    objects: &Objects<'_>,
    at: u32,
    goal: &Lifted<'_>,
) -> Result<(), ReadFault>
    requires { All (λ o. o.kind < length domain.now.types.now) objects.now.rows.now }
    ensures ok { OnOk result
        (chosen (sizes_wrong (size_of (parents_of domain.now.types.now) (map thing_of objects.now.rows.now)) at (formula goal.now) (map schema_of domain.now.schemas.now)) ≡ None) }
    ensures refused { (code : TheCode) (place : ℕ) → result ≡ Err (ReadFault.Refused code place)
        → chosen (sizes_wrong (size_of (parents_of domain.now.types.now) (map thing_of objects.now.rows.now)) at (formula goal.now) (map schema_of domain.now.schemas.now)) ≡ Some (record { at = place; code = code }) }
{
    let _ = domain.schema_names.len();
    let _ = objects.names.len();
    let sizes = sizes(alloc, domain.declared.ancestries, objects.rows)?;
    let mut first = None;
    judge_goal(sizes.as_slice(), at, goal, &mut first);
    end_phase(first)?;
    let mut first = None;
    judge_actions(sizes.as_slice(), domain.schemas, &mut first);
    end_phase(first)?;
    Ok(())
}
