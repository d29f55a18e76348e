//! Conditions.

ghost use Rattle.std.specs.Prelude.{◌≡◌, map, IfOk, OnOk};
ghost use Rattle.stp_text.specs.Tree.{view, views};
ghost use Rattle.stp_text.specs.Items.{two_of};
ghost use Rattle.stp_refusal.specs.Read.{IsRead};
ghost use Rattle.stp_schema.specs.Formula.{formula};
ghost use Rattle.stp_schema.specs.Known.{known};
ghost use Rattle.stp_condition.specs.Keys.{key_of};
ghost use Rattle.stp_condition.specs.Conditions.{equality_read, all_read, items_read, imply_read, quantified_read, by_key, condition_read};

use crate::formula::{implication, negated, quantified, refused};
use crate::variables::read_variables;
use crate::{Key, Scope, SymbolKind, key_of, read_atom, read_term};
use bumpalo::Bump;
use bumpalo::collections::into_bump_slice;
use std::alloc::Global;
use stp_base::Memory;
use stp_refusal::{Code, Offence};
use stp_schema::{Declared, Lifted, Objects};
use stp_text::{Sexpr, has_list};

/// An equality by the items behind its `=`, which are two words.
fn read_equality<'a>(
    declared: &Declared<'_>,
    objects: &Objects<'_>,
    scope: &Scope<'_>,
    at: u32,
    items: &[Sexpr<'_>],
    first: &mut Option<Offence>,
) -> Lifted<'a>
    ensures { IsRead first.old first.new (formula result)
        (equality_read (known declared.now objects.now.rows.now) scope.now at (views items.now)) }
{
    if has_list(items) {
        return refused(at, Code::D21, first);
    }
    let [one, other] = items else {
        return refused(at, Code::D16, first);
    };
    let one = read_term(declared, objects, scope, None, one, first);
    let other = read_term(declared, objects, scope, None, other, first);
    Lifted::Same(one, other)
}

/// What a tree says as a condition. Each offence is noted, and the scope is at the end as it was.
#[cycle(conditions)]
pub fn read_condition_in<'a>(
    alloc: Global,
    arena: &'a Bump,
    declared: &Declared<'_>,
    objects: &Objects<'_>,
    scope: &mut Scope<'a>,
    tree: &'a Sexpr<'a>,
    first: &mut Option<Offence>,
) -> Result<Lifted<'a>, Memory>
    ensures value { IfOk result
        (λ r. IsRead first.old first.new (formula r)
        (condition_read (known declared.now objects.now.rows.now) (view tree.now) scope.old)) }
    ensures kept { OnOk result (scope.new ≡ scope.old) }
{
    match tree {
        Sexpr::Word { at, .. } => Ok(refused(*at, Code::D16, first)),
        Sexpr::Items { at, items } => {
            let [head, rest @ ..] = *items else {
                return Ok(Lifted::And(&[]));
            };
            match head {
                Sexpr::Items { .. } => Ok(refused(*at, Code::D16, first)),
                Sexpr::Word { text, .. } => {
                    let condition = read_list(
                        alloc, arena, declared, objects, scope, *at, text, rest, first,
                    )?;
                    Ok(condition)
                }
            }
        }
    }
}

/// A list at a place, by its first word and the items behind it.
#[cycle(conditions)]
fn read_list<'a>(
    alloc: Global,
    arena: &'a Bump,
    declared: &Declared<'_>,
    objects: &Objects<'_>,
    scope: &mut Scope<'a>,
    at: u32,
    text: &[u8],
    items: &'a [Sexpr<'a>],
    first: &mut Option<Offence>,
) -> Result<Lifted<'a>, Memory>
    ensures value { IfOk result
        (λ r. let k = known declared.now objects.now.rows.now in
        IsRead first.old first.new (formula r)
        (by_key (key_of text.now) k at text.now (views items.now) (items_read k (views items.now)) scope.old)) }
    ensures kept { OnOk result (scope.new ≡ scope.old) }
{
    match key_of(text) {
        Key::Symbol => {
            let kind = SymbolKind::Predicate;
            let atom = read_atom(
                arena, kind, declared, objects, scope, at, text, items, first,
            )?;
            Ok(Lifted::Atom(atom))
        }
        Key::Equal => Ok(read_equality(declared, objects, scope, at, items, first)),
        Key::Not => {
            let [inner] = items else {
                return Ok(refused(at, Code::D16, first));
            };
            let inner = read_condition_in(alloc, arena, declared, objects, scope, inner, first)?;
            let condition = negated(arena, inner)?;
            Ok(condition)
        }
        Key::And => {
            let members = read_all(alloc, arena, declared, objects, scope, items, first)?;
            Ok(Lifted::And(members))
        }
        Key::Or => {
            let members = read_all(alloc, arena, declared, objects, scope, items, first)?;
            Ok(Lifted::Or(members))
        }
        Key::Imply => {
            let condition = read_implication(
                alloc, arena, declared, objects, scope, at, items, first,
            )?;
            Ok(condition)
        }
        Key::Forall => {
            let condition = read_quantified(
                alloc, arena, true, declared, objects, scope, at, items, first,
            )?;
            Ok(condition)
        }
        Key::Exists => {
            let condition = read_quantified(
                alloc, arena, false, declared, objects, scope, at, items, first,
            )?;
            Ok(condition)
        }
        Key::Comparison | Key::Preference => Ok(refused(at, Code::D21, first)),
        Key::When | Key::Change | Key::Arithmetic(_) => Ok(refused(at, Code::D16, first)),
    }
}

/// Conditions in order.
#[cycle(conditions)]
fn read_all<'a>(
    alloc: Global,
    arena: &'a Bump,
    declared: &Declared<'_>,
    objects: &Objects<'_>,
    scope: &mut Scope<'a>,
    items: &'a [Sexpr<'a>],
    first: &mut Option<Offence>,
) -> Result<&'a [Lifted<'a>], Memory>
    ensures value { IfOk result
        (λ r. IsRead first.old first.new (map formula r.now)
        (all_read (items_read (known declared.now objects.now.rows.now) (views items.now)) scope.old)) }
    ensures kept { OnOk result (scope.new ≡ scope.old) }
{
    let mut out = Vec::new(arena);
    for item in items {
        out.push(read_condition_in(alloc, arena, declared, objects, scope, item, first)?)?;
    }
    Ok(into_bump_slice(out))
}

/// An implication by the items behind its first word, which are two conditions.
#[cycle(conditions)]
fn read_implication<'a>(
    alloc: Global,
    arena: &'a Bump,
    declared: &Declared<'_>,
    objects: &Objects<'_>,
    scope: &mut Scope<'a>,
    at: u32,
    items: &'a [Sexpr<'a>],
    first: &mut Option<Offence>,
) -> Result<Lifted<'a>, Memory>
    ensures value { IfOk result
        (λ r. IsRead first.old first.new (formula r)
        (imply_read at (two_of (items_read (known declared.now objects.now.rows.now) (views items.now))) scope.old)) }
    ensures kept { OnOk result (scope.new ≡ scope.old) }
{
    let [one, other] = items else {
        return Ok(refused(at, Code::D16, first));
    };
    let one = read_condition_in(alloc, arena, declared, objects, scope, one, first)?;
    let other = read_condition_in(alloc, arena, declared, objects, scope, other, first)?;
    let condition = implication(arena, one, other)?;
    Ok(condition)
}

/// A quantifier by the items behind its first word: a list of variables, and a condition in their scope.
#[cycle(conditions)]
fn read_quantified<'a>(
    alloc: Global,
    arena: &'a Bump,
    every: bool,
    declared: &Declared<'_>,
    objects: &Objects<'_>,
    scope: &mut Scope<'a>,
    at: u32,
    items: &'a [Sexpr<'a>],
    first: &mut Option<Offence>,
) -> Result<Lifted<'a>, Memory>
    ensures value { IfOk result
        (λ r. let k = known declared.now objects.now.rows.now in
        IsRead first.old first.new (formula r) (quantified_read every k at (two_of (items_read k (views items.now))) scope.old)) }
    ensures kept { OnOk result (scope.new ≡ scope.old) }
{
    let [variables, body] = items else {
        return Ok(refused(at, Code::D16, first));
    };
    let mark = scope.len();
    let kinds = read_variables(alloc, arena, declared, scope, variables, first)?;
    let inner = read_condition_in(alloc, arena, declared, objects, scope, body, first)?;
    scope.truncate(mark);
    let condition = quantified(arena, every, kinds, inner)?;
    Ok(condition)
}
