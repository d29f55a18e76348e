//! The times of plans.

ghost use Rattle.std.specs.Prelude.{◌≡◌, true, All};
ghost use Rattle.stp_schema.specs.Timed.{AreTimedFacts, timed_facts_of};
ghost use Rattle.stp_exec.specs.Timed.{plain_timed, is_lawful_timed};

use crate::TimedStep;
use stp_schema::TimedFact;

/// When the steps of a plan start and how long they last, and when the events of the environment come.
#[derive(Drop)]
pub struct Times<'a> {
    pub steps: Vec<TimedStep>,
    pub events: &'a [TimedFact<'a>],
    pub ghost lawful: { All (λ step. is_lawful_timed (plain_timed step) ≡ true) steps.items },
    pub ghost kept: { AreTimedFacts (timed_facts_of events.now) },
}
