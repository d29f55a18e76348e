//! Events of the environment.

use stp_base::ObjectId;
use stp_frac::Frac;

/// A literal of an event of the environment.
#[derive(Clone, Copy)]
pub struct TimedLiteral<'a> {
    pub adds: bool,
    pub predicate: u32,
    pub args: &'a [ObjectId],
}

/// An event of the environment, and the least and the greatest time at which it comes.
#[derive(Clone, Copy)]
pub struct TimedFact<'a> {
    pub low: Frac,
    pub high: Frac,
    pub literals: &'a [TimedLiteral<'a>],
}
