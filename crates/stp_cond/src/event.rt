//! Events: what happens at one moment of a step.

ghost use Rattle.stp_cond.specs.Views.{IsEvent};

use crate::cond::Cond;
use stp_base::AtomId;

/// An event of a step: the condition that it needs, and the atoms that it reads, adds and deletes.
///
/// The lists are ascending without repeats, no atom is both added and deleted, and the read atoms hold
/// all atoms of the condition.
#[derive(Clone, Copy)]
pub struct Event<'a> {
    pub cond: &'a Cond<'a>,
    pub reads: &'a [AtomId],
    pub adds: &'a [AtomId],
    pub dels: &'a [AtomId],
    pub ghost lawful: { ∥ IsEvent cond.now reads.now adds.now dels.now ∥₁ },
}
