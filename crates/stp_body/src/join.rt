//! Expressions that are made of others.

ghost use Rattle.std.specs.Prelude.{◌≡◌, ◌≤◌, IfOk};
ghost use Rattle.stp_frac.specs.Fractions.{value_of};
ghost use Rattle.stp_schema.specs.Expression.{expression};
ghost use Rattle.stp_body.specs.Expressions.{zero_amount, joined};

use bumpalo::Bump;
use stp_base::Memory;
use stp_frac::Frac;
use stp_schema::Expr;

/// What joins two expressions.
#[derive(Clone, Copy, Debug, PartialEq, Eq)]
pub enum Join {
    Sum,
    Difference,
    Product,
    Quotient,
}

/// The number 0.
pub(crate) fn zero<'a>() -> Expr<'a>
    ensures { expression result ≡ zero_amount }
{
    Expr::Number(Frac::zero())
}

/// Two expressions joined.
pub(crate) fn make_joint<'a>(
    arena: &'a Bump,
    operator: Join,
    one: Expr<'a>,
    other: Expr<'a>,
) -> Result<Expr<'a>, Memory>
    ensures { IfOk result (λ r. expression r ≡ joined operator (expression one.entry) (expression other.entry)) }
{
    let one = arena.try_alloc(one)?;
    let other = arena.try_alloc(other)?;
    let value = match operator {
        Join::Sum => Expr::Plus(one, other),
        Join::Difference => Expr::Minus(one, other),
        Join::Product => Expr::Times(one, other),
        Join::Quotient => Expr::Over(one, other),
    };
    Ok(value)
}
