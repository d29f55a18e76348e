//! Conditions that are made of others.

ghost use Rattle.std.specs.Prelude.{◌≡◌, IfOk};
ghost use Rattle.stp_refusal.specs.Read.{IsRead, bad};
ghost use Rattle.stp_schema.specs.Formula.{formula, nothing, Not};
ghost use Rattle.stp_condition.specs.Conditions.{implied, quantifier};

use bumpalo::Bump;
use bumpalo::collections::into_bump_slice;
use stp_base::Memory;
use stp_refusal::{Code, Offence, note};
use stp_schema::Lifted;

/// Notes an offence of a condition, and gives what stands in its place.
pub fn refused<'a>(at: u32, code: Code, first: &mut Option<Offence>) -> Lifted<'a>
    ensures { IsRead first.old first.new (formula result) (bad at code nothing) }
{
    note(first, at, code);
    Lifted::And(&[])
}

/// The negation of a condition.
pub fn negated<'a>(arena: &'a Bump, inner: Lifted<'a>) -> Result<Lifted<'a>, Memory>
    ensures { IfOk result (λ r. formula r ≡ Not (formula inner.entry)) }
{
    let inner = arena.try_alloc(inner)?;
    Ok(Lifted::Not(inner))
}

/// What is true where the one condition is false or the other is true.
pub fn implication<'a>(
    arena: &'a Bump,
    one: Lifted<'a>,
    other: Lifted<'a>,
) -> Result<Lifted<'a>, Memory>
    ensures { IfOk result (λ r. formula r ≡ implied (formula one.entry) (formula other.entry)) }
{
    let negation = negated(arena, one)?;
    let mut members = Vec::new(arena);
    members.push(negation)?;
    members.push(other)?;
    Ok(Lifted::Or(into_bump_slice(members)))
}

/// A condition for all objects of these types, or for some.
pub fn quantified<'a>(
    arena: &'a Bump,
    every: bool,
    kinds: &'a [u32],
    body: Lifted<'a>,
) -> Result<Lifted<'a>, Memory>
    ensures { IfOk result (λ r. formula r ≡ quantifier every kinds.now (formula body.entry)) }
{
    let body = arena.try_alloc(body)?;
    if every {
        return Ok(Lifted::Every(kinds, body));
    }
    Ok(Lifted::Any(kinds, body))
}
