//! What a name and arguments choose.

ghost use Rattle.std.specs.Prelude.{◌≡◌, true};
ghost use Rattle.stp_task.specs.Durations.{is_lawful, plain_duration};

use stp_base::ObjectId;
use stp_instance::{Ground, Written};
use stp_task::Duration;

/// A schema with objects for its parameters: its conditions expanded, and the atoms of its effects.
#[derive(Clone, Copy)]
pub struct Chosen<'a> {
    pub schema: u32,
    pub args: &'a [ObjectId],
    pub duration: Duration,
    pub start_cond: Ground<'a>,
    pub over_all: Ground<'a>,
    pub end_cond: Ground<'a>,
    pub start_adds: &'a [Written<'a>],
    pub start_dels: &'a [Written<'a>],
    pub end_adds: &'a [Written<'a>],
    pub end_dels: &'a [Written<'a>],
    pub ghost lawful: { is_lawful (plain_duration duration) ≡ true },
}
