//! Ground actions.

ghost use Rattle.std.specs.Prelude.{◌≡◌, ◌||◌, true, is_some};
ghost use Rattle.stp_cond.specs.Formulas.{view};
ghost use Rattle.stp_cond.specs.Folded.{is_always};
ghost use Rattle.stp_task.specs.Durations.{plain_duration, is_lawful, lasts};

use crate::duration::Duration;
use stp_base::ObjectId;
use stp_cond::{Cond, Event};

/// An action's schema with objects for its parameters. Its bounds are lawful. It has a finish exactly where its duration
/// is not an instant; where it is, the condition over all is the formula true.
#[derive(Clone, Copy)]
pub struct GroundAction<'a> {
    pub schema: u32,
    pub args: &'a [ObjectId],
    pub duration: Duration,
    pub start: Event<'a>,
    pub finish: Option<Event<'a>>,
    pub over: &'a Cond<'a>,
    pub ghost lawful: { is_lawful (plain_duration duration) ≡ true },
    pub ghost ends: { is_some finish ≡ lasts (plain_duration duration) },
    pub ghost over_at_once: { (lasts (plain_duration duration) || is_always (view over.now)) ≡ true },
}
