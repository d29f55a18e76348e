//! Effects of durative actions.

ghost use Rattle.std.specs.Prelude.{◌≡◌, IfOk, OnOk};
ghost use Rattle.stp_text.specs.Tree.{view, views};
ghost use Rattle.stp_refusal.specs.Read.{IsRead, map_read};
ghost use Rattle.stp_schema.specs.Known.{known};
ghost use Rattle.stp_body.specs.TimedEffects.{timed_and_then, at_read, timed_effect_read, all_timed_effects};
ghost use Rattle.stp_body.specs.EffectViews.{timed_effects_of, timed_gathered_of};

use crate::effect::Effects;
use crate::form::{Form, Moment, at_moment, form_of};
use crate::gather::{Gathered, gather};
use bumpalo::Bump;
use std::alloc::Global;
use stp_base::Memory;
use stp_condition::Scope;
use stp_refusal::{Code, Offence, note};
use stp_schema::{Declared, Objects};
use stp_text::Sexpr;

/// The effects of a durative action at its start and at its end.
#[derive(Clone, Copy)]
pub struct TimedEffects<'a> {
    pub start: Effects<'a>,
    pub end: Effects<'a>,
}

/// The atoms of the effects that were read so far, at each moment.
#[derive(Drop)]
struct TimedGathered<'a> {
    start: Gathered<'a>,
    end: Gathered<'a>,
}

/// Gathers what a list says that begins with the word of no connective: it must be `(at start EFFECT)` or
/// `(at end EFFECT)`.
fn gather_at<'a>(
    arena: &'a Bump,
    declared: &Declared<'_>,
    objects: &Objects<'_>,
    scope: &Scope<'_>,
    at: u32,
    word: &[u8],
    items: &'a [Sexpr<'a>],
    out: &mut TimedGathered<'a>,
    first: &mut Option<Offence>,
) -> Result<(), Memory>
    ensures { OnOk result
        (IsRead first.old first.new (timed_gathered_of out.new)
        (map_read (timed_and_then (timed_gathered_of out.old))
        (at_read (known declared.now objects.now.rows.now) scope.now at word.now (views items.now)))) }
{
    let Some((moment, effect)) = at_moment(word, items) else {
        note(first, at, Code::D22);
        return Ok(());
    };
    match moment {
        Moment::Start => {
            let found = &mut out.start;
            gather(arena, declared, objects, scope, effect, found, first)?;
            Ok(())
        }
        Moment::End => {
            let found = &mut out.end;
            gather(arena, declared, objects, scope, effect, found, first)?;
            Ok(())
        }
    }
}

/// Gathers what a tree says as the effect of a durative action.
#[cycle(timed_effects)]
fn gather_timed<'a>(
    arena: &'a Bump,
    declared: &Declared<'_>,
    objects: &Objects<'_>,
    scope: &Scope<'_>,
    tree: &'a Sexpr<'a>,
    out: &mut TimedGathered<'a>,
    first: &mut Option<Offence>,
) -> Result<(), Memory>
    ensures { OnOk result
        (IsRead first.old first.new (timed_gathered_of out.new)
        (map_read (timed_and_then (timed_gathered_of out.old))
        (timed_effect_read (known declared.now objects.now.rows.now) scope.now (view tree.now)))) }
{
    let (at, items) = match tree {
        Sexpr::Word { at, .. } => {
            note(first, *at, Code::D22);
            return Ok(());
        }
        Sexpr::Items { at, items } => (*at, *items),
    };
    let [head, rest @ ..] = items else {
        return Ok(());
    };
    let Sexpr::Word { text, .. } = head else {
        note(first, at, Code::D22);
        return Ok(());
    };
    match form_of(text) {
        Form::And => gather_all_timed(arena, declared, objects, scope, rest, out, first)?,
        Form::Atom => gather_at(arena, declared, objects, scope, at, text, rest, out, first)?,
        Form::Unsupported => note(first, at, Code::D23),
        Form::Not => note(first, at, Code::D22),
        Form::Malformed => note(first, at, Code::D22),
    }
    Ok(())
}

/// Gathers what several trees say as effects of a durative action, one after the other.
#[cycle(timed_effects)]
fn gather_all_timed<'a>(
    arena: &'a Bump,
    declared: &Declared<'_>,
    objects: &Objects<'_>,
    scope: &Scope<'_>,
    items: &'a [Sexpr<'a>],
    out: &mut TimedGathered<'a>,
    first: &mut Option<Offence>,
) -> Result<(), Memory>
    ensures { OnOk result
        (IsRead first.old first.new (timed_gathered_of out.new)
        (map_read (timed_and_then (timed_gathered_of out.old))
        (all_timed_effects (known declared.now objects.now.rows.now) scope.now (views items.now)))) }
{
    for item in items {
        gather_timed(arena, declared, objects, scope, item, out, first)?;
    }
    Ok(())
}

/// The effects of a durative action.
///
/// Each offence is noted: a tree that is no effect at the start or at the end, effects that are not supported, and
/// what is wrong with atoms.
pub fn read_timed_effect<'a>(
    alloc: Global,
    arena: &'a Bump,
    declared: &Declared<'_>,
    objects: &Objects<'_>,
    scope: &Scope<'_>,
    tree: &'a Sexpr<'a>,
    first: &mut Option<Offence>,
) -> Result<TimedEffects<'a>, Memory>
    ensures { IfOk result
        (λ r. IsRead first.old first.new (timed_effects_of r)
        (timed_effect_read (known declared.now objects.now.rows.now) scope.now (view tree.now))) }
{
    let mut found = TimedGathered {
        start: Gathered::new(alloc),
        end: Gathered::new(alloc),
    };
    gather_timed(arena, declared, objects, scope, tree, &mut found, first)?;
    let start = found.start.in_arena(arena)?;
    let end = found.end.in_arena(arena)?;
    Ok(TimedEffects { start, end })
}
