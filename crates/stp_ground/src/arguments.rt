//! The schema of a name, and the objects of the names of arguments.

ghost use Rattle.std.specs.Prelude.{◌≡◌, ◌≢◌, ◌++◌, ◌∷◌, [], length, option_map, ok_or, MatchResult, OnOk, Ok, Err};
ghost use Rattle.stp_schema.specs.Schemas.{schema_of};
ghost use Rattle.stp_schema.specs.Views.{problem_of};
ghost use Rattle.stp_instance.specs.Bindings.{numbers_of};
ghost use Rattle.stp_ground.specs.Chosen.{argument, arguments, bound, named};

use crate::fault::InstanceFault;
use std::alloc::Global;
use stp_base::{Memory, ObjectId, Text};
use stp_schema::{Problem, Schema};

/// The schema of a name, with its number.
pub(crate) fn named<'a>(problem: &Problem<'a>, name: &[u8]) -> Option<(u32, Schema<'a>)>
    ensures { named (problem_of problem.now) name.now ≡ ok_or (option_map (λ r. (r.0, schema_of r.1)) result) InstanceFault.UnknownAction }
{
    let Some(number) = problem.domain.find_schema(name) else {
        return None;
    };
    Some((number, problem.domain.schemas[number as usize]))
}

/// The object of a name, for a parameter of a type.
fn argument(problem: &Problem<'_>, kind: u32, name: &[u8]) -> Result<ObjectId, InstanceFault>
    ensures { MatchResult result
        (λ o. argument (problem_of problem.now) kind name.now ≡ Ok o.0)
        (λ fault. argument (problem_of problem.now) kind name.now ≡ Err fault) }
{
    let Some(object) = problem.find_object(name) else {
        return Err(InstanceFault::UnknownObject);
    };
    if !problem
        .domain
        .is_below(problem.objects[object.0 as usize].kind, kind)
    {
        return Err(InstanceFault::WrongType);
    }
    Ok(object)
}

/// Puts an object at the end.
fn keep(objects: &mut Vec<ObjectId>, object: ObjectId) -> Result<(), Memory>
    ensures { OnOk result (objects.new.items ≡ objects.old.items ++ object ∷ []) }
{
    objects.push(object)?;
    Ok(())
}

/// The objects of these names, each for a parameter of its type.
fn arguments(
    alloc: Global,
    problem: &Problem<'_>,
    kinds: &[u32],
    names: &[Text],
) -> Result<Vec<ObjectId>, InstanceFault>
    requires { length kinds.now ≡ length names.now }
    ensures { MatchResult result
        (λ r. arguments (problem_of problem.now) kinds.now names.now ≡ Ok (numbers_of r.items))
        (λ fault. fault ≢ InstanceFault.Memory → arguments (problem_of problem.now) kinds.now names.now ≡ Err fault) }
{
    let mut objects = Vec::new(alloc);
    for (place, kind) in kinds.iter().enumerate() {
        let object = argument(problem, *kind, names[place].as_slice())?;
        keep(&mut objects, object)?;
    }
    Ok(objects)
}

/// The objects of these names, where there are as many as parameters.
pub(crate) fn bound(
    alloc: Global,
    problem: &Problem<'_>,
    kinds: &[u32],
    names: &[Text],
) -> Result<Vec<ObjectId>, InstanceFault>
    ensures { MatchResult result
        (λ r. bound (problem_of problem.now) kinds.now names.now ≡ Ok (numbers_of r.items))
        (λ fault. fault ≢ InstanceFault.Memory → bound (problem_of problem.now) kinds.now names.now ≡ Err fault) }
{
    if kinds.len() != names.len() {
        return Err(InstanceFault::WrongCount);
    }
    arguments(alloc, problem, kinds, names)
}
