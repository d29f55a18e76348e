//! A condition alone, over the declarations of a domain and any objects.

ghost use Rattle.std.specs.Prelude.{◌≡◌, None, Some, Err, IfOk, OnOk};
ghost use Rattle.stp_text.specs.Tree.{view};
ghost use Rattle.stp_refusal.specs.declared.offence.Offence.{Offence as TheOffence};
ghost use Rattle.stp_refusal.specs.First.{first_of};
ghost use Rattle.stp_refusal.specs.Phases.{refusal_of};
ghost use Rattle.stp_schema.specs.Formula.{formula};
ghost use Rattle.stp_schema.specs.Known.{known};
ghost use Rattle.stp_condition.specs.Conditions.{condition_read};
ghost use Rattle.stp_condition.specs.Whole.{texts_of, scope_with};

use crate::firsts::first_objects;
use crate::placed::placed;
use bumpalo::Bump;
use std::alloc::Global;
use stp_refusal::ReadFault;
use stp_schema::{Domain, Lifted, ObjectRow};
use stp_text::Sexpr;

/// The condition that a tree says in a domain with these objects, in the scope of variables with these names and
/// these types, or exactly its first offence. An object's number is its place; of objects with one name the first
/// has it.
pub fn read_condition<'a>(
    alloc: Global,
    arena: &'a Bump,
    domain: &Domain<'a>,
    objects: &[ObjectRow<'a>],
    names: &[&'a [u8]],
    kinds: &[u32],
    tree: &'a Sexpr<'a>,
) -> Result<Lifted<'a>, ReadFault>
    ensures value { IfOk result
        (λ r. formula r
        ≡ (condition_read (known domain.now.declared objects.now) (view tree.now) (scope_with (texts_of names.now) kinds.now)).value) }
    ensures lawful { OnOk result
        (first_of (condition_read (known domain.now.declared objects.now) (view tree.now) (scope_with (texts_of names.now) kinds.now)).offences
        ≡ None) }
    ensures refused { (o : TheOffence) → result ≡ Err (refusal_of o)
        → first_of (condition_read (known domain.now.declared objects.now) (view tree.now) (scope_with (texts_of names.now) kinds.now)).offences
        ≡ Some o }
{
    let firsts = first_objects(alloc, arena, objects)?;
    let condition = stp_condition::read_condition(
        alloc,
        arena,
        &domain.declared,
        &firsts.objects,
        names,
        kinds,
        tree,
    )?;
    let condition = placed(arena, firsts.places.as_slice(), &condition)?;
    Ok(condition)
}
