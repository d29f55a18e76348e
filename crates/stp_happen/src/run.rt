//! Runs: events at moments, and the spans of the steps.

ghost use Rattle.stp_happen.specs.Sound.{IsRun};

use stp_base::{List, StateRow, StepId};
use stp_cond::{Cond, Event};

/// An event of a step at a moment.
#[derive(Clone, Copy)]
pub struct Entry<'a> {
    pub time: u128,
    pub step: StepId,
    pub event: Event<'a>,
}

/// When a step runs, ends included, which action it is of, and what has to hold inside.
#[derive(Clone, Copy)]
pub struct Span<'a> {
    pub from: u128,
    pub to: u128,
    pub step: StepId,
    pub key: u32,
    pub over: &'a Cond<'a>,
}

/// What happens when, on a grid of so many moments in a unit of time.
///
/// Entries stand by time and then by step, spans by step. No two entries have both one time and one step,
/// and no two spans have one step.
#[derive(Drop)]
pub struct Run<'a> {
    pub grid: u128,
    pub entries: List<Entry<'a>>,
    pub spans: List<Span<'a>>,
    pub initial: StateRow,
    pub goal: &'a Cond<'a>,
    pub ghost sound: { ∥ IsRun grid entries spans initial goal.now ∥₁ },
}
