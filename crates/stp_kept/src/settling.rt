//! What conditions come to by what is static alone.

ghost use Rattle.std.specs.Prelude.{◌≡◌, true, ◌++◌, map, take, IfOk, OnOk};
ghost use Rattle.stp_schema.specs.Formula.{formula};
ghost use Rattle.stp_tables.specs.Atoms.{atom_with};
ghost use Rattle.stp_cond.specs.declared.known.Three.{Three as Value};
ghost use Rattle.stp_cond.specs.Decided.{three_of, opposite};
ghost use Rattle.stp_instance.specs.Bindings.{numbers_of, objects_of};
ghost use Rattle.stp_instance.specs.Expanded.{Stated, expanded};
ghost use Rattle.stp_instance.specs.Numbered.{is_fluent, is_in};
ghost use Rattle.stp_instance.specs.Typing.{objects_in};
ghost use Rattle.stp_kept.specs.Settled.{is_no, joint, joint_of, joint_of_none, settled};

use bumpalo::Bump;
use std::alloc::Global;
use stp_base::{Memory, ObjectId};
use stp_cond::Three;
use stp_instance::{Members, Odometer, is_fluent, object_under};
use stp_schema::{Lifted, LiftedAtom, Term};
use stp_tables::AtomTable;

/// Which predicates are fluent, and a table of the atoms that are true at first.
#[derive(Clone, Copy)]
pub struct Statics<'w> {
    pub fluent: &'w [bool],
    pub facts: &'w AtomTable,
}

/// Yes or no.
fn three(value: bool) -> Three
    ensures { result ≡ three_of value }
{
    if value { Three::Yes } else { Three::No }
}

/// The opposite of a value.
fn turned(one: Three) -> Three
    ensures { result ≡ opposite one }
{
    match one {
        Three::Yes => Three::No,
        Three::No => Three::Yes,
        Three::Unknown => Three::Unknown,
    }
}

/// Whether a value is no.
pub(crate) fn is_no(value: Three) -> bool
    ensures { result ≡ is_no value }
{
    match value {
        Three::No => true,
        Three::Yes | Three::Unknown => false,
    }
}

/// The value of two facts together, or of one or the other.
fn joined(all: bool, one: Three, other: Three) -> Three
    ensures { result ≡ joint all one other }
{
    match (all, one, other) {
        (true, Three::Yes, _) | (false, Three::No, _) => other,
        (true, Three::No, _) | (true, _, Three::No) => Three::No,
        (false, Three::Yes, _) | (false, _, Three::Yes) => Three::Yes,
        _ => Three::Unknown,
    }
}

/// The value of no facts together, or of none of several.
fn joined_none(all: bool) -> Three
    ensures { result ≡ joint_of_none all }
{
    if all { Three::Yes } else { Three::No }
}

/// Whether no further fact changes a value.
fn is_final(all: bool, one: Three) -> bool
    ensures { result ≡ true → (other : Value) → joint all one other ≡ one }
{
    match (all, one) {
        (true, Three::No) | (false, Three::Yes) => true,
        _ => false,
    }
}

/// Puts the objects that these terms stand for at the end of a list.
fn put_objects(args: &mut Vec<ObjectId>, binding: &[ObjectId], terms: &[Term]) -> Result<(), Memory>
    ensures { OnOk result
        (numbers_of args.new.items ≡ numbers_of args.old.items ++ objects_of (numbers_of binding.now) terms.now) }
{
    for term in terms {
        args.push(object_under(binding, *term))?;
    }
    Ok(())
}

/// Whether an atom is among the facts.
fn settle_fact(facts: &AtomTable, predicate: u32, args: &[ObjectId]) -> Three
    ensures { result ≡ three_of (is_in facts.now (atom_with predicate args.now)) }
{
    three(facts.find(predicate, args).is_some())
}

/// The value of an atom under a binding.
fn settle_atom(
    alloc: Global,
    statics: &Statics<'_>,
    binding: &[ObjectId],
    atom: &LiftedAtom<'_>,
) -> Result<Three, Memory>
    ensures { IfOk result
        (λ r. r ≡ settled (is_fluent statics.now.fluent.now) (is_in statics.now.facts.now) (Stated (record { predicate = atom.now.symbol; args = objects_of (numbers_of binding.now) atom.now.terms.now }))) }
{
    if is_fluent(statics.fluent, atom.symbol) {
        return Ok(Three::Unknown);
    }
    let mut args = Vec::with_capacity(alloc, atom.terms.len())?;
    put_objects(&mut args, binding, atom.terms)?;
    Ok(settle_fact(statics.facts, atom.symbol, &args))
}

/// The value of a condition under a binding of its variables, where of the atoms the static ones are known and the fluent
/// ones are not. The binding is at the end as it was.
#[cycle(settle)]
pub fn settle<'a>(
    alloc: Global,
    arena: &'a Bump,
    statics: &Statics<'_>,
    members: &mut Members<'a>,
    binding: &mut Vec<ObjectId>,
    cond: &Lifted<'_>,
) -> Result<Three, Memory>
    ensures value { IfOk result
        (λ r. r ≡ settled (is_fluent statics.now.fluent.now) (is_in statics.now.facts.now) (expanded (objects_in members.old) (numbers_of binding.old.items) (formula cond.now))) }
    ensures binding { OnOk result (numbers_of binding.new.items ≡ numbers_of binding.old.items) }
    ensures members { members.new ≡ members.old }
{
    match cond {
        Lifted::Atom(atom) => {
            let value = settle_atom(alloc, statics, binding, atom)?;
            Ok(value)
        }
        Lifted::Same(one, other) => {
            let one = object_under(binding, *one);
            let other = object_under(binding, *other);
            Ok(three(one.0 == other.0))
        }
        Lifted::Not(inner) => {
            let inner = settle(alloc, arena, statics, members, binding, inner)?;
            Ok(turned(inner))
        }
        Lifted::And(parts) => {
            let value = settle_all(alloc, arena, statics, members, binding, true, parts)?;
            Ok(value)
        }
        Lifted::Or(parts) => {
            let value = settle_all(alloc, arena, statics, members, binding, false, parts)?;
            Ok(value)
        }
        Lifted::Every(kinds, body) => {
            let mut left = Odometer::new(alloc, arena, members, kinds)?;
            let value = settle_under(
                alloc, arena, statics, members, binding, true, &mut left, body,
            )?;
            Ok(value)
        }
        Lifted::Any(kinds, body) => {
            let mut left = Odometer::new(alloc, arena, members, kinds)?;
            let value = settle_under(
                alloc, arena, statics, members, binding, false, &mut left, body,
            )?;
            Ok(value)
        }
    }
}

/// The value of several conditions together, or of one or the other.
#[cycle(settle)]
fn settle_all<'a>(
    alloc: Global,
    arena: &'a Bump,
    statics: &Statics<'_>,
    members: &mut Members<'a>,
    binding: &mut Vec<ObjectId>,
    all: bool,
    conds: &[Lifted<'_>],
) -> Result<Three, Memory>
    ensures value { IfOk result
        (λ r. r ≡ joint_of all (map (λ c. settled (is_fluent statics.now.fluent.now) (is_in statics.now.facts.now) (expanded (objects_in members.old) (numbers_of binding.old.items) (formula c))) conds.now)) }
    ensures binding { OnOk result (numbers_of binding.new.items ≡ numbers_of binding.old.items) }
    ensures members { members.new ≡ members.old }
{
    let mut so_far = joined_none(all);
    for cond in conds {
        let value = settle(alloc, arena, statics, members, binding, cond)?;
        so_far = joined(all, so_far, value);
        if is_final(all, so_far) {
            return Ok(so_far);
        }
    }
    Ok(so_far)
}

/// The value of a condition with one more binding, which is taken away again at the end.
#[cycle(settle)]
fn settle_with<'a>(
    alloc: Global,
    arena: &'a Bump,
    statics: &Statics<'_>,
    members: &mut Members<'a>,
    binding: &mut Vec<ObjectId>,
    mark: usize,
    body: &Lifted<'_>,
) -> Result<Three, Memory>
    ensures value { IfOk result
        (λ r. r ≡ settled (is_fluent statics.now.fluent.now) (is_in statics.now.facts.now) (expanded (objects_in members.old) (numbers_of binding.old.items) (formula body.now))) }
    ensures binding { OnOk result (numbers_of binding.new.items ≡ take mark (numbers_of binding.old.items)) }
    ensures members { members.new ≡ members.old }
{
    let value = settle(alloc, arena, statics, members, binding, body)?;
    binding.truncate(mark);
    Ok(value)
}

/// The value of a condition under all of these bindings of further variables, or under one or the other.
#[cycle(settle)]
fn settle_under<'a>(
    alloc: Global,
    arena: &'a Bump,
    statics: &Statics<'_>,
    members: &mut Members<'a>,
    binding: &mut Vec<ObjectId>,
    all: bool,
    left: &mut Odometer<'a>,
    body: &Lifted<'_>,
) -> Result<Three, Memory>
    ensures value { IfOk result
        (λ r. r ≡ joint_of all (map (λ objects. settled (is_fluent statics.now.fluent.now) (is_in statics.now.facts.now) (expanded (objects_in members.old) (numbers_of binding.old.items ++ objects) (formula body.now))) left.old)) }
    ensures binding { OnOk result (numbers_of binding.new.items ≡ numbers_of binding.old.items) }
    ensures members { members.new ≡ members.old }
{
    let mark = binding.len();
    let mut so_far = joined_none(all);
    'turns: while left.next(binding)? {
        let value = settle_with(alloc, arena, statics, members, binding, mark, body)?;
        so_far = joined(all, so_far, value);
        if is_final(all, so_far) {
            return Ok(so_far);
        }
    }
    Ok(so_far)
}
