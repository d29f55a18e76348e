//! Conditions over variables and objects.

use stp_base::ObjectId;

/// What stands as an argument. Variables are counted from 0: first the parameters, then the variables of the
/// quantifiers from the outermost inwards.
#[derive(Clone, Copy, Debug, PartialEq, Eq)]
pub enum Term {
    Variable(u32),
    Object(ObjectId),
}

/// A predicate or a function, by its number, with its arguments.
#[derive(Clone, Copy)]
pub struct LiftedAtom<'a> {
    pub symbol: u32,
    pub terms: &'a [Term],
}

/// A condition, whose parts lie in an arena. A quantifier has the types of its variables.
#[derive(Clone, Copy)]
pub enum Lifted<'a> {
    Atom(LiftedAtom<'a>),
    Same(Term, Term),
    Not(&'a Lifted<'a>),
    And(&'a [Lifted<'a>]),
    Or(&'a [Lifted<'a>]),
    Every(&'a [u32], &'a Lifted<'a>),
    Any(&'a [u32], &'a Lifted<'a>),
}
