//! Steps in their places.

ghost use Rattle.std.specs.Prelude.{◌≡◌, true};
ghost use Rattle.stp_task.specs.Durations.{plain_duration};
ghost use Rattle.stp_exec.specs.Held.{plain_held};
ghost use Rattle.stp_exec.specs.Timed.{plain_timed, is_lawful_timed};
ghost use Rattle.stp_exec.specs.Times.{fits};

use crate::TimedStep;
use stp_ground::Chosen;

/// A step in its place: what it chooses, when it starts and how long it lasts.
#[derive(Clone, Copy)]
pub struct Placed<'a> {
    pub chosen: Chosen<'a>,
    pub timed: TimedStep,
    pub ghost lawful: { is_lawful_timed (plain_timed timed) ≡ true },
    pub ghost fitting: { fits (plain_duration chosen.duration) (plain_held timed.held) ≡ true },
}
