//! Expressions of durations.

use crate::lifted::LiftedAtom;
use stp_frac::Frac;

/// An expression, whose parts lie in an arena.
#[derive(Clone, Copy)]
pub enum Expr<'a> {
    Number(Frac),
    Value(LiftedAtom<'a>),
    Plus(&'a Expr<'a>, &'a Expr<'a>),
    Minus(&'a Expr<'a>, &'a Expr<'a>),
    Times(&'a Expr<'a>, &'a Expr<'a>),
    Over(&'a Expr<'a>, &'a Expr<'a>),
}
