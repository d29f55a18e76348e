//! Expressions of durations.

ghost use Rattle.std.specs.Prelude.{◌≡◌, ◌≤◌, length, map, IfOk};
ghost use Rattle.stp_text.specs.Tree.{view, views};
ghost use Rattle.stp_refusal.specs.Read.{IsRead};
ghost use Rattle.stp_frac.specs.Fractions.{value_of};
ghost use Rattle.stp_schema.specs.Known.{known};
ghost use Rattle.stp_schema.specs.Expression.{expression};
ghost use Rattle.stp_body.specs.Expressions.{wrong, number_read, chained, paired, subtracted, operated, expression_read, each_read};

use crate::join::{Join, make_joint, zero};
use bumpalo::Bump;
use stp_base::Memory;
use stp_condition::{Key, Operator, Scope, SymbolKind, key_of, read_atom};
use stp_frac::Frac;
use stp_refusal::{Code, Offence, note};
use stp_schema::{Declared, Expr, LiftedAtom, Objects};
use stp_text::Sexpr;

/// Notes an offence of an expression, and gives what stands in its place.
pub(crate) fn refused<'a>(at: u32, first: &mut Option<Offence>) -> Expr<'a>
    ensures { IsRead first.old first.new (expression result) (wrong at) }
{
    note(first, at, Code::D24);
    Expr::Value(LiftedAtom {
        symbol: 0,
        terms: &[],
    })
}

/// The number that a word at a place spells.
fn read_number<'a>(at: u32, text: &[u8], first: &mut Option<Offence>) -> Expr<'a>
    ensures { IsRead first.old first.new (expression result) (number_read at text.now) }
{
    match Frac::read(text) {
        Ok(number) => Expr::Number(number),
        Err(_) => refused(at, first),
    }
}

/// What a tree says as an expression. A word is a number, a list the value of a function or an operator between
/// expressions; anything else is D24 at it.
#[cycle(expressions)]
pub fn read_expression<'a>(
    arena: &'a Bump,
    declared: &Declared<'_>,
    objects: &Objects<'_>,
    scope: &Scope<'_>,
    tree: &Sexpr<'_>,
    first: &mut Option<Offence>,
) -> Result<Expr<'a>, Memory>
    ensures { IfOk result
        (λ r. IsRead first.old first.new (expression r)
        (expression_read (known declared.now objects.now.rows.now) scope.now (view tree.now))) }
{
    let (at, items) = match tree {
        Sexpr::Word { at, text } => return Ok(read_number(*at, text, first)),
        Sexpr::Items { at, items } => (*at, *items),
    };
    let [head, rest @ ..] = items else {
        return Ok(refused(at, first));
    };
    let name = match head {
        Sexpr::Word { text, .. } => *text,
        Sexpr::Items { .. } => return Ok(refused(at, first)),
    };
    match key_of(name) {
        Key::Symbol => {
            let atom = read_atom(
                arena,
                SymbolKind::Function,
                declared,
                objects,
                scope,
                at,
                name,
                rest,
                first,
            )?;
            Ok(Expr::Value(atom))
        }
        Key::Arithmetic(operator) => {
            let value = read_operation(arena, declared, objects, scope, operator, at, rest, first)?;
            Ok(value)
        }
        _ => Ok(refused(at, first)),
    }
}

/// What an operator at a place says of the items behind it.
#[cycle(expressions)]
fn read_operation<'a>(
    arena: &'a Bump,
    declared: &Declared<'_>,
    objects: &Objects<'_>,
    scope: &Scope<'_>,
    operator: Operator,
    at: u32,
    items: &[Sexpr<'_>],
    first: &mut Option<Offence>,
) -> Result<Expr<'a>, Memory>
    ensures { IfOk result
        (λ r. IsRead first.old first.new (expression r)
        (operated operator at (each_read (known declared.now objects.now.rows.now) scope.now (views items.now)))) }
{
    let value = match operator {
        Operator::Plus => read_chain(arena, declared, objects, scope, Join::Sum, at, items, first)?,
        Operator::Times => {
            read_chain(
                arena,
                declared,
                objects,
                scope,
                Join::Product,
                at,
                items,
                first,
            )?
        }
        Operator::Minus => read_difference(arena, declared, objects, scope, at, items, first)?,
        Operator::Over => read_pair(
            arena,
            declared,
            objects,
            scope,
            Join::Quotient,
            at,
            items,
            first,
        )?,
    };
    Ok(value)
}

/// Two or more expressions, joined from left to right.
#[cycle(expressions)]
fn read_chain<'a>(
    arena: &'a Bump,
    declared: &Declared<'_>,
    objects: &Objects<'_>,
    scope: &Scope<'_>,
    operator: Join,
    at: u32,
    items: &[Sexpr<'_>],
    first: &mut Option<Offence>,
) -> Result<Expr<'a>, Memory>
    ensures { IfOk result
        (λ r. IsRead first.old first.new (expression r)
        (chained operator at (each_read (known declared.now objects.now.rows.now) scope.now (views items.now)))) }
{
    let [head, rest @ ..] = items else {
        return Ok(refused(at, first));
    };
    if rest.len() == 0 {
        return Ok(refused(at, first));
    }
    let mut value = read_expression(arena, declared, objects, scope, head, first)?;
    for item in rest {
        let other = read_expression(arena, declared, objects, scope, item, first)?;
        value = make_joint(arena, operator, value, other)?;
    }
    Ok(value)
}

/// Exactly two expressions joined.
#[cycle(expressions)]
fn read_pair<'a>(
    arena: &'a Bump,
    declared: &Declared<'_>,
    objects: &Objects<'_>,
    scope: &Scope<'_>,
    operator: Join,
    at: u32,
    items: &[Sexpr<'_>],
    first: &mut Option<Offence>,
) -> Result<Expr<'a>, Memory>
    ensures { IfOk result
        (λ r. IsRead first.old first.new (expression r)
        (paired operator at (each_read (known declared.now objects.now.rows.now) scope.now (views items.now)))) }
{
    let [one, other] = items else {
        return Ok(refused(at, first));
    };
    let one = read_expression(arena, declared, objects, scope, one, first)?;
    let other = read_expression(arena, declared, objects, scope, other, first)?;
    let value = make_joint(arena, operator, one, other)?;
    Ok(value)
}

/// 0 minus the one expression, or the difference of two.
#[cycle(expressions)]
fn read_difference<'a>(
    arena: &'a Bump,
    declared: &Declared<'_>,
    objects: &Objects<'_>,
    scope: &Scope<'_>,
    at: u32,
    items: &[Sexpr<'_>],
    first: &mut Option<Offence>,
) -> Result<Expr<'a>, Memory>
    ensures { IfOk result
        (λ r. IsRead first.old first.new (expression r)
        (subtracted at (each_read (known declared.now objects.now.rows.now) scope.now (views items.now)))) }
{
    let [one] = items else {
        let value = read_pair(
            arena,
            declared,
            objects,
            scope,
            Join::Difference,
            at,
            items,
            first,
        )?;
        return Ok(value);
    };
    let one = read_expression(arena, declared, objects, scope, one, first)?;
    let value = make_joint(arena, Join::Difference, zero(), one)?;
    Ok(value)
}
