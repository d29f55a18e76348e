//! Values of expressions.

ghost use Rattle.std.specs.Prelude.{◌≡◌, option_map, IfOk, Some};
ghost use Rattle.stp_frac.specs.Fractions.{value_of};
ghost use Rattle.stp_schema.specs.Expression.{expression};
ghost use Rattle.stp_instance.specs.Bindings.{numbers_of, objects_of};
ghost use Rattle.stp_instance.specs.Values.{given_in, value};
ghost use Rattle.stp_instance.specs.Operators.{applied, finished, whole};

use crate::objects_under;
use crate::values::Values;
use bumpalo::Bump;
use std::alloc::Global;
use stp_base::{Memory, ObjectId};
use stp_frac::Frac;
use stp_schema::{Expr, LiftedAtom};

/// What is done with two values.
#[derive(Clone, Copy)]
enum Operator {
    Plus,
    Minus,
    Times,
    Over,
}

/// An expression by its kind.
#[derive(Clone, Copy)]
enum Form<'e> {
    Number(Frac),
    Value(LiftedAtom<'e>),
    Joint(Operator, &'e Expr<'e>, &'e Expr<'e>),
}

/// An operator with the value of its right operand.
#[derive(Clone, Copy)]
struct Step {
    operator: Operator,
    right: Frac,
}

impl Operator {
    /// What the operator makes of two values.
    fn apply(self, one: Frac, other: Frac) -> Option<Frac>
        ensures { option_map value_of result ≡ applied self (value_of one) (value_of other) }
    {
        match self {
            Operator::Plus => one.plus(other),
            Operator::Minus => one.minus(other),
            Operator::Times => one.times(other),
            Operator::Over => one.over(other),
        }
    }
}

/// The kind of an expression.
fn form_of<'e>(expr: &Expr<'e>) -> Form<'e>
    ensures { expression expr.now ≡ whole result }
{
    match expr {
        Expr::Number(number) => Form::Number(*number),
        Expr::Value(atom) => Form::Value(*atom),
        Expr::Plus(one, other) => Form::Joint(Operator::Plus, one, other),
        Expr::Minus(one, other) => Form::Joint(Operator::Minus, one, other),
        Expr::Times(one, other) => Form::Joint(Operator::Times, one, other),
        Expr::Over(one, other) => Form::Joint(Operator::Over, one, other),
    }
}

/// The value of a function at the objects of its terms.
fn value_at(
    alloc: Global,
    values: &Values<'_>,
    binding: &[ObjectId],
    atom: &LiftedAtom<'_>,
) -> Result<Option<Frac>, Memory>
    ensures { IfOk result
        (λ r. option_map value_of r
        ≡ given_in values.now atom.now.symbol (objects_of (numbers_of binding.now) atom.now.terms.now)) }
{
    let arena = Bump::new(alloc);
    let args = objects_under(&arena, binding, atom.terms)?;
    Ok(values.find(atom.symbol, args))
}

/// The value once these steps are done with a value, the last first.
fn finish(mut steps: Vec<Step>, first: Option<Frac>) -> Option<Frac>
    ensures { option_map value_of result ≡ finished steps.items (option_map value_of first) }
{
    let mut value = first?;
    while let Some(step) = steps.pop() {
        value = step.operator.apply(value, step.right)?;
    }
    Some(value)
}

/// The value of an expression under a binding, if it has one. It has none where a function has none, where a
/// divisor is 0, and where the result of an operator is out of range.
pub fn value(
    alloc: Global,
    values: &Values<'_>,
    binding: &[ObjectId],
    expr: &Expr<'_>,
) -> Result<Option<Frac>, Memory>
    ensures { IfOk result
        (λ r. option_map value_of r ≡ value values.now (numbers_of binding.now) (expression expr.now)) }
{
    let mut steps = Vec::new(alloc);
    let mut form = form_of(expr);
    loop {
        match form {
            Form::Number(number) => return Ok(finish(steps, Some(number))),
            Form::Value(atom) => {
                let first = value_at(alloc, values, binding, &atom)?;
                return Ok(finish(steps, first));
            }
            Form::Joint(operator, one, other) => {
                let Some(right) = value(alloc, values, binding, other)? else {
                    return Ok(None);
                };
                steps.push(Step { operator, right })?;
                form = form_of(one);
            }
        }
    }
}
