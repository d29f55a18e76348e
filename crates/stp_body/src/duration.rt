//! Durations.

ghost use Rattle.std.specs.Prelude.{◌≡◌, map, option_map, IfOk, bytes_eq, codes};
ghost use Rattle.stp_text.specs.Tree.{view, views};
ghost use Rattle.stp_refusal.specs.Read.{IsRead};
ghost use Rattle.stp_schema.specs.Known.{known};
ghost use Rattle.stp_text.specs.Items.{list_of};
ghost use Rattle.stp_body.specs.Durations.{relation_of, relation_in, is_subject, is_and, part_of, part_of_items, one_part, two_parts, joined_parts, parts_of_items, parts_of, fixed, bounded, bounds_read, duration_read, wrong_bounds, place};
ghost use Rattle.stp_body.specs.Expressions.{expression_read};
ghost use Rattle.stp_body.specs.DurationViews.{part_view, parts_view, bounds_of};

use crate::expression::{read_expression, refused};
use bumpalo::Bump;
use stp_base::Memory;
use stp_condition::Scope;
use stp_refusal::Offence;
use stp_schema::{Declared, Expr, Objects};
use stp_text::Sexpr;

/// The least and the greatest duration.
#[derive(Clone, Copy)]
pub struct Bounds<'a> {
    pub low: Expr<'a>,
    pub high: Expr<'a>,
}

/// How a duration relates to a bound.
#[derive(Clone, Copy, Debug, PartialEq, Eq)]
pub enum Relation {
    Equal,
    AtLeast,
    AtMost,
}

/// A relation of the duration to an expression.
#[derive(Clone, Copy)]
struct Part<'t> {
    relation: Relation,
    bound: Sexpr<'t>,
}

/// The one or two parts of a duration, if it matches.
#[derive(Clone, Copy)]
enum Parts<'t> {
    Neither,
    One(Part<'t>),
    Two(Part<'t>, Part<'t>),
}

/// The relation that a word names.
fn relation_of(text: &[u8]) -> Option<Relation>
    ensures { result ≡ relation_of text.now }
{
    if text == b"=".as_slice() {
        Some(Relation::Equal)
    } else if text == b">=".as_slice() {
        Some(Relation::AtLeast)
    } else if text == b"<=".as_slice() {
        Some(Relation::AtMost)
    } else {
        None
    }
}

/// The relation that stands in front of a part.
fn relation_in(tree: &Sexpr<'_>) -> Option<Relation>
    ensures { result ≡ relation_in (view tree.now) }
{
    match tree {
        Sexpr::Word { text, .. } => relation_of(text),
        Sexpr::Items { .. } => None,
    }
}

/// Whether an item is the word for the duration.
fn is_subject(tree: &Sexpr<'_>) -> bool
    ensures { result ≡ is_subject (view tree.now) }
{
    match tree {
        Sexpr::Word { text, .. } => *text == b"?duration".as_slice(),
        Sexpr::Items { .. } => false,
    }
}

/// Whether an item is the word that joins parts.
fn is_and(tree: &Sexpr<'_>) -> bool
    ensures { result ≡ is_and (view tree.now) }
{
    match tree {
        Sexpr::Word { text, .. } => *text == b"and".as_slice(),
        Sexpr::Items { .. } => false,
    }
}

/// The part that three items make.
fn part_of_items<'t>(items: &[Sexpr<'t>]) -> Option<Part<'t>>
    ensures { option_map part_view result ≡ part_of_items (map view items.now) }
{
    let [relation, subject, bound] = items else {
        return None;
    };
    if !is_subject(subject) {
        return None;
    }
    let relation = relation_in(relation)?;
    Some(Part {
        relation,
        bound: *bound,
    })
}

/// The part that a list makes.
fn part_of<'t>(tree: &Sexpr<'t>) -> Option<Part<'t>>
    ensures { option_map part_view result ≡ part_of (view tree.now) }
{
    match tree {
        Sexpr::Word { .. } => None,
        Sexpr::Items { items, .. } => part_of_items(items),
    }
}

/// A duration of one part.
fn one_part<'t>(part: Option<Part<'t>>) -> Parts<'t>
    ensures { parts_view result ≡ one_part (option_map part_view part.entry) }
{
    match part {
        Some(part) => Parts::One(part),
        None => Parts::Neither,
    }
}

/// A duration of two parts.
fn two_parts<'t>(one: Option<Part<'t>>, other: Option<Part<'t>>) -> Parts<'t>
    ensures { parts_view result ≡ two_parts (option_map part_view one.entry) (option_map part_view other.entry) }
{
    match (one, other) {
        (Some(one), Some(other)) => Parts::Two(one, other),
        _ => Parts::Neither,
    }
}

/// The parts that stand behind `and`.
fn joined_parts<'t>(items: &[Sexpr<'t>]) -> Parts<'t>
    ensures { parts_view result ≡ joined_parts (map view items.now) }
{
    let [one, rest @ ..] = items else {
        return Parts::Neither;
    };
    let [other, more @ ..] = rest else {
        return one_part(part_of(one));
    };
    if more.len() > 0 {
        return Parts::Neither;
    }
    two_parts(part_of(one), part_of(other))
}

/// The parts of a duration.
fn parts_of<'t>(items: &[Sexpr<'t>]) -> Parts<'t>
    ensures { parts_view result ≡ parts_of_items (map view items.now) }
{
    let [head, rest @ ..] = items else {
        return Parts::Neither;
    };
    if is_and(head) {
        return joined_parts(rest);
    }
    one_part(part_of_items(items))
}

/// Notes a duration that does not match, and gives what stands in its place.
fn refused_bounds<'a>(at: u32, first: &mut Option<Offence>) -> Bounds<'a>
    ensures { IsRead first.old first.new (bounds_of result) (wrong_bounds at) }
{
    let nothing = refused(at, first);
    Bounds {
        low: nothing,
        high: nothing,
    }
}

/// A duration of one part, which has to say what it is equal to.
fn read_fixed<'a>(
    arena: &'a Bump,
    declared: &Declared<'_>,
    objects: &Objects<'_>,
    scope: &Scope<'_>,
    at: u32,
    part: &Part<'_>,
    first: &mut Option<Offence>,
) -> Result<Bounds<'a>, Memory>
    ensures { IfOk result
        (λ r. IsRead first.old first.new (bounds_of r)
        (fixed at part.now.relation
        (expression_read (known declared.now objects.now.rows.now) scope.now (view part.now.bound)))) }
{
    match part.relation {
        Relation::Equal => {
            let value = read_expression(arena, declared, objects, scope, &part.bound, first)?;
            Ok(Bounds {
                low: value,
                high: value,
            })
        }
        Relation::AtLeast => Ok(refused_bounds(at, first)),
        Relation::AtMost => Ok(refused_bounds(at, first)),
    }
}

/// A duration of two parts, which have to be a low and a high bound in either order.
fn read_bounded<'a>(
    arena: &'a Bump,
    declared: &Declared<'_>,
    objects: &Objects<'_>,
    scope: &Scope<'_>,
    at: u32,
    one: &Part<'_>,
    other: &Part<'_>,
    first: &mut Option<Offence>,
) -> Result<Bounds<'a>, Memory>
    ensures { IfOk result
        (λ r. IsRead first.old first.new (bounds_of r)
        (bounded at one.now.relation other.now.relation
        (expression_read (known declared.now objects.now.rows.now) scope.now (view one.now.bound))
        (expression_read (known declared.now objects.now.rows.now) scope.now (view other.now.bound)))) }
{
    match (one.relation, other.relation) {
        (Relation::AtLeast, Relation::AtMost) => {
            let low = read_expression(arena, declared, objects, scope, &one.bound, first)?;
            let high = read_expression(arena, declared, objects, scope, &other.bound, first)?;
            Ok(Bounds { low, high })
        }
        (Relation::AtMost, Relation::AtLeast) => {
            let high = read_expression(arena, declared, objects, scope, &one.bound, first)?;
            let low = read_expression(arena, declared, objects, scope, &other.bound, first)?;
            Ok(Bounds { low, high })
        }
        _ => Ok(refused_bounds(at, first)),
    }
}

/// What a tree says as a duration: that it is equal to an expression, or between two. Anything else is D24 at it.
pub fn read_duration<'a>(
    arena: &'a Bump,
    declared: &Declared<'_>,
    objects: &Objects<'_>,
    scope: &Scope<'_>,
    tree: &Sexpr<'_>,
    first: &mut Option<Offence>,
) -> Result<Bounds<'a>, Memory>
    ensures { IfOk result
        (λ r. IsRead first.old first.new (bounds_of r)
        (duration_read (known declared.now objects.now.rows.now) scope.now (view tree.now))) }
{
    let (at, items) = match tree {
        Sexpr::Word { at, .. } => return Ok(refused_bounds(*at, first)),
        Sexpr::Items { at, items } => (*at, *items),
    };
    let bounds = match parts_of(items) {
        Parts::Neither => refused_bounds(at, first),
        Parts::One(part) => read_fixed(arena, declared, objects, scope, at, &part, first)?,
        Parts::Two(one, other) => {
            read_bounded(arena, declared, objects, scope, at, &one, &other, first)?
        }
    };
    Ok(bounds)
}
