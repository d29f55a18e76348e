//! What an action says besides its name and its parameters.

ghost use Rattle.std.specs.Prelude.{◌≡◌, map, option_map, IfOk, OnOk};
ghost use Rattle.stp_text.specs.Tree.{view};
ghost use Rattle.stp_refusal.specs.Read.{IsRead};
ghost use Rattle.stp_domain_parts.specs.Views.{action_of, tree_in};
ghost use Rattle.stp_schema.specs.Known.{known};
ghost use Rattle.stp_schema.specs.Formula.{formula, nothing};
ghost use Rattle.stp_schema.specs.Schemas.{timing_of};
ghost use Rattle.stp_condition.specs.TimedConditions.{no_parts, conjunctions, timed_condition_read};
ghost use Rattle.stp_condition.specs.Views.{timed_conditions_of};
ghost use Rattle.stp_body.specs.Effects.{no_effects, effect_read};
ghost use Rattle.stp_body.specs.TimedEffects.{no_timed_effects, timed_effect_read};
ghost use Rattle.stp_body.specs.EffectViews.{effects_of, timed_effects_of};
ghost use Rattle.stp_body.specs.DurationViews.{bounds_of};
ghost use Rattle.stp_domain.specs.Bodies.{optional, needs, simple_read, parts_read, durative_body, durative_read, chosen_timing, suffered_timing, body_read};
ghost use Rattle.stp_domain.specs.BodyViews.{body_of, parts_of};

use bumpalo::Bump;
use std::alloc::Global;
use stp_base::Memory;
use stp_body::{Bounds, Effects, TimedEffects, read_duration, read_effect, read_timed_effect};
use stp_condition::{Scope, TimedConditions, read_condition_in, read_timed_condition};
use stp_domain_parts::{ActionParts, TimingParts};
use stp_refusal::Offence;
use stp_schema::{Declared, Lifted, Objects, Timing};
use stp_text::Sexpr;

/// How long an action lasts, what it needs, and what it changes.
#[derive(Clone, Copy)]
pub struct Body<'a> {
    pub timing: Timing<'a>,
    pub start_cond: Lifted<'a>,
    pub over_all: Lifted<'a>,
    pub end_cond: Lifted<'a>,
    pub start: Effects<'a>,
    pub end: Effects<'a>,
}

/// The conditions and the effects of a durative action.
#[derive(Clone, Copy)]
pub struct Parts<'a> {
    pub conditions: TimedConditions<'a>,
    pub effects: TimedEffects<'a>,
}

/// What is always true.
fn nothing_needed<'a>() -> Lifted<'a>
    ensures { formula result ≡ nothing }
{
    Lifted::And(&[])
}

/// No effect.
fn nothing_changed<'a>() -> Effects<'a>
    ensures { effects_of result ≡ no_effects }
{
    Effects {
        adds: &[],
        dels: &[],
    }
}

/// What a simple action needs.
fn read_needs<'a>(
    alloc: Global,
    arena: &'a Bump,
    declared: &Declared<'_>,
    objects: &Objects<'_>,
    scope: &mut Scope<'a>,
    tree: Option<&'a Sexpr<'a>>,
    first: &mut Option<Offence>,
) -> Result<Lifted<'a>, Memory>
    ensures value { IfOk result
        (λ r. IsRead first.old first.new (formula r)
        (needs (known declared.now objects.now.rows.now) scope.old (tree_in tree.entry))) }
    ensures kept { OnOk result (scope.new ≡ scope.old) }
{
    let Some(tree) = tree else {
        return Ok(nothing_needed());
    };
    let condition = read_condition_in(alloc, arena, declared, objects, scope, tree, first)?;
    Ok(condition)
}

/// What a simple action changes.
fn read_changes<'a>(
    alloc: Global,
    arena: &'a Bump,
    declared: &Declared<'_>,
    objects: &Objects<'_>,
    scope: &Scope<'_>,
    tree: Option<&'a Sexpr<'a>>,
    first: &mut Option<Offence>,
) -> Result<Effects<'a>, Memory>
    ensures { IfOk result
        (λ r. IsRead first.old first.new (effects_of r)
        (optional no_effects (effect_read (known declared.now objects.now.rows.now) scope.now) (tree_in tree.entry))) }
{
    let Some(tree) = tree else {
        return Ok(nothing_changed());
    };
    let effects = read_effect(alloc, arena, declared, objects, scope, tree, first)?;
    Ok(effects)
}

/// A simple action.
fn read_simple<'a>(
    alloc: Global,
    arena: &'a Bump,
    declared: &Declared<'_>,
    objects: &Objects<'_>,
    scope: &mut Scope<'a>,
    action: &ActionParts<'a>,
    first: &mut Option<Offence>,
) -> Result<Body<'a>, Memory>
    ensures { IfOk result
        (λ r. IsRead first.old first.new (body_of r)
        (simple_read (known declared.now objects.now.rows.now) scope.old (action_of action.now))) }
{
    let needs = read_needs(
        alloc,
        arena,
        declared,
        objects,
        scope,
        action.condition,
        first,
    )?;
    let changes = read_changes(alloc, arena, declared, objects, scope, action.effect, first)?;
    Ok(Body {
        timing: Timing::Instant,
        start_cond: needs,
        over_all: nothing_needed(),
        end_cond: nothing_needed(),
        start: changes,
        end: nothing_changed(),
    })
}

/// What a durative action needs.
fn read_timed_needs<'a>(
    alloc: Global,
    arena: &'a Bump,
    declared: &Declared<'_>,
    objects: &Objects<'_>,
    scope: &mut Scope<'a>,
    tree: Option<&'a Sexpr<'a>>,
    first: &mut Option<Offence>,
) -> Result<TimedConditions<'a>, Memory>
    ensures value { IfOk result
        (λ r. IsRead first.old first.new (timed_conditions_of r)
        (optional (conjunctions no_parts) (timed_condition_read (known declared.now objects.now.rows.now) scope.old) (tree_in tree.entry))) }
    ensures kept { OnOk result (scope.new ≡ scope.old) }
{
    let Some(tree) = tree else {
        return Ok(TimedConditions {
            start: nothing_needed(),
            over_all: nothing_needed(),
            end: nothing_needed(),
        });
    };
    let conditions = read_timed_condition(alloc, arena, declared, objects, scope, tree, first)?;
    Ok(conditions)
}

/// What a durative action changes.
fn read_timed_changes<'a>(
    alloc: Global,
    arena: &'a Bump,
    declared: &Declared<'_>,
    objects: &Objects<'_>,
    scope: &Scope<'_>,
    tree: Option<&'a Sexpr<'a>>,
    first: &mut Option<Offence>,
) -> Result<TimedEffects<'a>, Memory>
    ensures { IfOk result
        (λ r. IsRead first.old first.new (timed_effects_of r)
        (optional no_timed_effects (timed_effect_read (known declared.now objects.now.rows.now) scope.now) (tree_in tree.entry))) }
{
    let Some(tree) = tree else {
        return Ok(TimedEffects {
            start: nothing_changed(),
            end: nothing_changed(),
        });
    };
    let effects = read_timed_effect(alloc, arena, declared, objects, scope, tree, first)?;
    Ok(effects)
}

/// The conditions and the effects of a durative action.
fn read_parts<'a>(
    alloc: Global,
    arena: &'a Bump,
    declared: &Declared<'_>,
    objects: &Objects<'_>,
    scope: &mut Scope<'a>,
    action: &ActionParts<'a>,
    first: &mut Option<Offence>,
) -> Result<Parts<'a>, Memory>
    ensures { IfOk result
        (λ r. IsRead first.old first.new (parts_of r)
        (parts_read (known declared.now objects.now.rows.now) scope.old (action_of action.now))) }
{
    let conditions = read_timed_needs(
        alloc,
        arena,
        declared,
        objects,
        scope,
        action.condition,
        first,
    )?;
    let effects = read_timed_changes(alloc, arena, declared, objects, scope, action.effect, first)?;
    Ok(Parts {
        conditions,
        effects,
    })
}

/// A durative action, once it is known how long it lasts.
fn durative<'a>(timing: Timing<'a>, parts: Parts<'a>) -> Body<'a>
    ensures { body_of result ≡ durative_body (timing_of timing.entry) (parts_of parts.entry) }
{
    Body {
        timing,
        start_cond: parts.conditions.start,
        over_all: parts.conditions.over_all,
        end_cond: parts.conditions.end,
        start: parts.effects.start,
        end: parts.effects.end,
    }
}

/// A duration that the plan chooses.
fn chosen<'a>(arena: &'a Bump, bounds: Bounds<'a>) -> Result<Timing<'a>, Memory>
    ensures { IfOk result (λ r. timing_of r ≡ chosen_timing (bounds_of bounds.entry)) }
{
    let low = arena.try_alloc(bounds.low)?;
    let high = arena.try_alloc(bounds.high)?;
    Ok(Timing::Controlled(low, high))
}

/// A duration that the environment chooses.
fn suffered<'a>(arena: &'a Bump, bounds: Bounds<'a>) -> Result<Timing<'a>, Memory>
    ensures { IfOk result (λ r. timing_of r ≡ suffered_timing (bounds_of bounds.entry)) }
{
    let low = arena.try_alloc(bounds.low)?;
    let high = arena.try_alloc(bounds.high)?;
    Ok(Timing::Uncertain(low, high))
}

/// A durative action whose duration the plan chooses.
fn read_controlled<'a>(
    alloc: Global,
    arena: &'a Bump,
    declared: &Declared<'_>,
    objects: &Objects<'_>,
    scope: &mut Scope<'a>,
    duration: &Sexpr<'a>,
    action: &ActionParts<'a>,
    first: &mut Option<Offence>,
) -> Result<Body<'a>, Memory>
    ensures { IfOk result
        (λ r. IsRead first.old first.new (body_of r)
        (durative_read (known declared.now objects.now.rows.now) scope.old chosen_timing (view duration.now) (action_of action.now))) }
{
    let bounds = read_duration(arena, declared, objects, scope, duration, first)?;
    let timing = chosen(arena, bounds)?;
    let parts = read_parts(alloc, arena, declared, objects, scope, action, first)?;
    Ok(durative(timing, parts))
}

/// A durative action whose duration the environment chooses.
fn read_uncertain<'a>(
    alloc: Global,
    arena: &'a Bump,
    declared: &Declared<'_>,
    objects: &Objects<'_>,
    scope: &mut Scope<'a>,
    duration: &Sexpr<'a>,
    action: &ActionParts<'a>,
    first: &mut Option<Offence>,
) -> Result<Body<'a>, Memory>
    ensures { IfOk result
        (λ r. IsRead first.old first.new (body_of r)
        (durative_read (known declared.now objects.now.rows.now) scope.old suffered_timing (view duration.now) (action_of action.now))) }
{
    let bounds = read_duration(arena, declared, objects, scope, duration, first)?;
    let timing = suffered(arena, bounds)?;
    let parts = read_parts(alloc, arena, declared, objects, scope, action, first)?;
    Ok(durative(timing, parts))
}

/// What an action says besides its name and its parameters, which are in scope.
pub fn read_body<'a>(
    alloc: Global,
    arena: &'a Bump,
    declared: &Declared<'_>,
    objects: &Objects<'_>,
    scope: &mut Scope<'a>,
    action: &ActionParts<'a>,
    first: &mut Option<Offence>,
) -> Result<Body<'a>, Memory>
    ensures { IfOk result
        (λ r. IsRead first.old first.new (body_of r)
        (body_read (known declared.now objects.now.rows.now) scope.old (action_of action.now))) }
{
    let body = match action.timing {
        TimingParts::Instant => read_simple(alloc, arena, declared, objects, scope, action, first)?,
        TimingParts::Controlled(duration) => {
            read_controlled(
                alloc, arena, declared, objects, scope, duration, action, first,
            )?
        }
        TimingParts::Uncertain(duration) => {
            read_uncertain(
                alloc, arena, declared, objects, scope, duration, action, first,
            )?
        }
    };
    Ok(body)
}
