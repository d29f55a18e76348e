//! Steps of a plan and events of the environment, whose ends and moments are chosen later.

ghost use Rattle.stp_happen.specs.SoundBox.{IsBox};

use stp_base::{List, StateRow};
use stp_cond::{Cond, Event};

/// A step: its start, its least and greatest end, and what happens at both.
///
/// The two ends are equal unless the step is uncertain, and equal to the start where there is no last event.
#[derive(Clone, Copy)]
pub struct BoxStep<'a> {
    pub start: u128,
    pub low: u128,
    pub high: u128,
    pub uncertain: bool,
    pub key: u32,
    pub first: Event<'a>,
    pub last: Option<Event<'a>>,
    pub over: &'a Cond<'a>,
}

/// An event of the environment: its least and greatest moment, and what happens then.
///
/// The two are equal unless the moment is chosen later.
#[derive(Clone, Copy)]
pub struct BoxTimed<'a> {
    pub low: u128,
    pub high: u128,
    pub uncertain: bool,
    pub event: Event<'a>,
}

/// The steps of a plan and the events of the environment on a grid, the initial state and the goal.
///
/// The events at fixed moments come first, by moment.
#[derive(Drop)]
pub struct BoxRun<'a> {
    pub grid: u128,
    pub steps: List<BoxStep<'a>>,
    pub timed: List<BoxTimed<'a>>,
    pub initial: StateRow,
    pub goal: &'a Cond<'a>,
    pub ghost sound: { ∥ IsBox grid steps timed initial goal.now ∥₁ },
}
