//! Conditions under a binding, expanded.

ghost use Rattle.std.specs.Prelude.{◌≡◌, ◌++◌, map, IfOk, OnOk};
ghost use Rattle.stp_schema.specs.Formula.{formula};
ghost use Rattle.stp_instance.specs.Bindings.{numbers_of};
ghost use Rattle.stp_instance.specs.Expanded.{bindings_of, expanded};
ghost use Rattle.stp_instance.specs.Typing.{objects_in};
ghost use Rattle.stp_instance.specs.Views.{claim};

use crate::ground::Ground;
use crate::members::Members;
use crate::odometer::Odometer;
use crate::{object_under, objects_under};
use bumpalo::Bump;
use bumpalo::collections::into_bump_slice;
use std::alloc::Global;
use stp_base::{Memory, ObjectId};
use stp_schema::Lifted;

/// A condition under a binding of its variables: a quantifier becomes the conjunction, or the disjunction, of its
/// instances. The binding is at the end as it was.
#[cycle(expand)]
pub fn expand<'a>(
    alloc: Global,
    arena: &'a Bump,
    members: &mut Members<'a>,
    binding: &mut Vec<ObjectId>,
    cond: &Lifted<'_>,
) -> Result<Ground<'a>, Memory>
    ensures ground { IfOk result
        (λ r. claim r ≡ expanded (objects_in members.old) (numbers_of binding.old.items) (formula cond.now)) }
    ensures binding { OnOk result (numbers_of binding.new.items ≡ numbers_of binding.old.items) }
    ensures members { members.new ≡ members.old }
{
    match cond {
        Lifted::Atom(atom) => {
            let args = objects_under(arena, binding, atom.terms)?;
            Ok(Ground::Fact(atom.symbol, args))
        }
        Lifted::Same(one, other) => {
            let one = object_under(binding, *one);
            let other = object_under(binding, *other);
            Ok(Ground::Same(one, other))
        }
        Lifted::Not(inner) => {
            let inner = expand(alloc, arena, members, binding, inner)?;
            let inner = arena.try_alloc(inner)?;
            Ok(Ground::Opposite(inner))
        }
        Lifted::And(parts) => {
            let parts = expand_all(alloc, arena, members, binding, parts)?;
            Ok(Ground::Every(parts))
        }
        Lifted::Or(parts) => {
            let parts = expand_all(alloc, arena, members, binding, parts)?;
            Ok(Ground::Any(parts))
        }
        Lifted::Every(kinds, body) => {
            let parts = instances(alloc, arena, members, binding, kinds, body)?;
            Ok(Ground::Every(parts))
        }
        Lifted::Any(kinds, body) => {
            let parts = instances(alloc, arena, members, binding, kinds, body)?;
            Ok(Ground::Any(parts))
        }
    }
}

/// Several conditions under a binding.
#[cycle(expand)]
fn expand_all<'a>(
    alloc: Global,
    arena: &'a Bump,
    members: &mut Members<'a>,
    binding: &mut Vec<ObjectId>,
    conds: &[Lifted<'_>],
) -> Result<&'a [Ground<'a>], Memory>
    ensures ground { IfOk result
        (λ r. map claim r.now ≡ map (λ c. expanded (objects_in members.old) (numbers_of binding.old.items) (formula c)) conds.now) }
    ensures binding { OnOk result (numbers_of binding.new.items ≡ numbers_of binding.old.items) }
    ensures members { members.new ≡ members.old }
{
    let mut out = Vec::with_capacity(arena, conds.len())?;
    for cond in conds {
        out.push(expand(alloc, arena, members, binding, cond)?)?;
    }
    Ok(into_bump_slice(out))
}

/// A condition under each of the bindings that variables of these types give further, in dictionary order.
#[cycle(expand)]
fn instances<'a>(
    alloc: Global,
    arena: &'a Bump,
    members: &mut Members<'a>,
    binding: &mut Vec<ObjectId>,
    kinds: &[u32],
    body: &Lifted<'_>,
) -> Result<&'a [Ground<'a>], Memory>
    ensures ground { IfOk result
        (λ r. map claim r.now
        ≡ map (λ objects. expanded (objects_in members.old) (numbers_of binding.old.items ++ objects) (formula body.now)) (bindings_of (objects_in members.old) kinds.now)) }
    ensures binding { OnOk result (numbers_of binding.new.items ≡ numbers_of binding.old.items) }
    ensures members { members.new ≡ members.old }
{
    let mark = binding.len();
    let mut left = Odometer::new(alloc, arena, members, kinds)?;
    let mut out = Vec::new(arena);
    while left.next(binding)? {
        out.push(expand(alloc, arena, members, binding, body)?)?;
        binding.truncate(mark);
    }
    Ok(into_bump_slice(out))
}
