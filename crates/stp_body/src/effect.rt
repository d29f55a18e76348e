//! Effects of simple actions.

ghost use Rattle.std.specs.Prelude.{◌≡◌, IfOk};
ghost use Rattle.stp_text.specs.Tree.{view};
ghost use Rattle.stp_refusal.specs.Read.{IsRead};
ghost use Rattle.stp_schema.specs.Known.{known};
ghost use Rattle.stp_body.specs.Effects.{effect_read};
ghost use Rattle.stp_body.specs.EffectViews.{effects_of};

use crate::gather::{Gathered, gather};
use bumpalo::Bump;
use std::alloc::Global;
use stp_base::Memory;
use stp_condition::Scope;
use stp_refusal::Offence;
use stp_schema::{Declared, LiftedAtom, Objects};
use stp_text::Sexpr;

/// The atoms that an effect makes true, and those that it makes false, in the order of the text.
#[derive(Clone, Copy)]
pub struct Effects<'a> {
    pub adds: &'a [LiftedAtom<'a>],
    pub dels: &'a [LiftedAtom<'a>],
}

/// The effect of a simple action.
///
/// Each offence is noted: a tree that is no effect, effects that are not supported, and what is wrong with atoms.
pub fn read_effect<'a>(
    alloc: Global,
    arena: &'a Bump,
    declared: &Declared<'_>,
    objects: &Objects<'_>,
    scope: &Scope<'_>,
    tree: &'a Sexpr<'a>,
    first: &mut Option<Offence>,
) -> Result<Effects<'a>, Memory>
    ensures { IfOk result
        (λ r. IsRead first.old first.new (effects_of r)
        (effect_read (known declared.now objects.now.rows.now) scope.now (view tree.now))) }
{
    let mut found = Gathered::new(alloc);
    gather(arena, declared, objects, scope, tree, &mut found, first)?;
    let effects = found.in_arena(arena)?;
    Ok(effects)
}
