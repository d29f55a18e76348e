//! A condition alone.

ghost use Rattle.std.specs.Prelude.{◌≡◌, [], None, Some, Err, IfOk, OnOk};
ghost use Rattle.stp_text.specs.Tree.{view};
ghost use Rattle.stp_refusal.specs.declared.offence.Offence.{Offence as TheOffence};
ghost use Rattle.stp_refusal.specs.First.{first_of};
ghost use Rattle.stp_refusal.specs.Phases.{refusal_of};
ghost use Rattle.stp_schema.specs.Formula.{formula};
ghost use Rattle.stp_schema.specs.Known.{known};
ghost use Rattle.stp_condition.specs.Conditions.{condition_read};
ghost use Rattle.stp_condition.specs.Whole.{texts_of, scope_with};

use crate::Scope;
use crate::condition::read_condition_in;
use bumpalo::Bump;
use std::alloc::Global;
use stp_base::Memory;
use stp_refusal::{ReadFault, end_phase};
use stp_schema::{Declared, Lifted, Objects};
use stp_text::Sexpr;

/// The scope of variables with these names and these types.
fn scope_with<'a>(alloc: Global, names: &[&'a [u8]], kinds: &[u32]) -> Result<Scope<'a>, Memory>
    ensures { IfOk result (λ s. s ≡ scope_with (texts_of names.now) kinds.now) }
{
    let mut scope = Scope::new(alloc);
    let mut rest = kinds;
    for name in names {
        let [kind, tail @ ..] = rest else {
            return Ok(scope);
        };
        scope.push(name, *kind)?;
        rest = tail;
    }
    Ok(scope)
}

/// The condition that a tree says in the scope of variables with these names and these types, or exactly its first
/// offence.
pub fn read_condition<'a>(
    alloc: Global,
    arena: &'a Bump,
    declared: &Declared<'_>,
    objects: &Objects<'_>,
    names: &[&'a [u8]],
    kinds: &[u32],
    tree: &'a Sexpr<'a>,
) -> Result<Lifted<'a>, ReadFault>
    ensures value { IfOk result
        (λ r. formula r
        ≡ (condition_read (known declared.now objects.now.rows.now) (view tree.now) (scope_with (texts_of names.now) kinds.now)).value) }
    ensures lawful { OnOk result
        (first_of (condition_read (known declared.now objects.now.rows.now) (view tree.now) (scope_with (texts_of names.now) kinds.now)).offences
        ≡ None) }
    ensures refused { (o : TheOffence) → result ≡ Err (refusal_of o)
        → first_of (condition_read (known declared.now objects.now.rows.now) (view tree.now) (scope_with (texts_of names.now) kinds.now)).offences
        ≡ Some o }
{
    let mut scope = scope_with(alloc, names, kinds)?;
    let mut first = None;
    let condition = read_condition_in(
        alloc, arena, declared, objects, &mut scope, tree, &mut first,
    )?;
    end_phase(first)?;
    Ok(condition)
}
