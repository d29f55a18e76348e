//! Instances of schemas.

ghost use Rattle.std.specs.Prelude.{◌≡◌, true};
ghost use Rattle.stp_task.specs.Durations.{is_lawful, plain_duration};

use stp_base::ObjectId;
use stp_schema::Schema;
use stp_task::Duration;

/// A schema, by its number from 0, with objects for its parameters, and how long it lasts. The bounds of its duration
/// are lawful.
#[derive(Clone, Copy)]
pub struct Instance<'a> {
    pub number: u32,
    pub schema: &'a Schema<'a>,
    pub args: &'a [ObjectId],
    pub duration: Duration,
    pub ghost lawful: { is_lawful (plain_duration duration) ≡ true },
}
