//! Conditions of durative actions.

ghost use Rattle.std.specs.Prelude.{◌≡◌, IfOk, OnOk};
ghost use Rattle.stp_text.specs.Tree.{view};
ghost use Rattle.stp_refusal.specs.Read.{IsRead};
ghost use Rattle.stp_schema.specs.Known.{known};
ghost use Rattle.stp_condition.specs.TimedConditions.{timed_condition_read};
ghost use Rattle.stp_condition.specs.Views.{timed_conditions_of};

use crate::Scope;
use crate::gather::{Gathered, gather};
use bumpalo::Bump;
use std::alloc::Global;
use stp_base::Memory;
use stp_refusal::Offence;
use stp_schema::{Declared, Lifted, Objects};
use stp_text::Sexpr;

/// The conditions of a durative action at its start, between its start and its end, and at its end. Each is the
/// conjunction of its parts in the order of the text.
#[derive(Clone, Copy)]
pub struct TimedConditions<'a> {
    pub start: Lifted<'a>,
    pub over_all: Lifted<'a>,
    pub end: Lifted<'a>,
}

/// The conditions of a durative action. The scope is at the end as it was.
///
/// Each offence is noted: a tree that is no timed condition, conditions that are not supported, and what is wrong with
/// the condition of each span.
pub fn read_timed_condition<'a>(
    alloc: Global,
    arena: &'a Bump,
    declared: &Declared<'_>,
    objects: &Objects<'_>,
    scope: &mut Scope<'a>,
    tree: &'a Sexpr<'a>,
    first: &mut Option<Offence>,
) -> Result<TimedConditions<'a>, Memory>
    ensures value { IfOk result
        (λ r. IsRead first.old first.new (timed_conditions_of r)
        (timed_condition_read (known declared.now objects.now.rows.now) scope.old (view tree.now))) }
    ensures kept { OnOk result (scope.new ≡ scope.old) }
{
    let mut found = Gathered::new(alloc);
    gather(
        alloc, arena, declared, objects, scope, tree, &mut found, first,
    )?;
    let conditions = found.conjunctions(arena)?;
    Ok(conditions)
}
