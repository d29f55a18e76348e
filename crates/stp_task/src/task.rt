//! Planning tasks: ground actions over numbered atoms.

ghost use Rattle.stp_task.specs.SoundTask.{IsTask};

use crate::action::GroundAction;
use stp_base::{List, StateRow};
use stp_cond::{Cond, Event};
use stp_frac::Frac;
use stp_tables::AtomTable;

/// An event of the environment, and the time at which it comes.
#[derive(Clone, Copy)]
pub struct TimedEvent<'a> {
    pub at: Frac,
    pub event: Event<'a>,
}

/// Numbered atoms and which of them are true at first, the actions, the events of the environment, and the goal. On the
/// grid lie the bounds of all durations and the times of all events.
///
/// The events stand by time, no two at one time.
#[derive(Drop)]
pub struct Task<'a> {
    pub atoms: AtomTable,
    pub initial: StateRow,
    pub actions: List<GroundAction<'a>>,
    pub timed: List<TimedEvent<'a>>,
    pub goal: &'a Cond<'a>,
    pub grid: u128,
    pub ghost sound: { ∥ IsTask atoms initial actions timed goal.now ∥₁ },
}
