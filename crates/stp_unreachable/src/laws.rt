//! The law of certificates for the plans of a problem, and what its premises stand on. Nothing here runs.

ghost use Rattle.stp_unreachable.specs.PlansOf.{NoPlanRuns};
ghost use Rattle.stp_unreachable.specs.Premises.{EventsAreProper, ReadActionsArePlain};

/// Where there is a certificate for the task of a problem, no run of any of its plans executes.
pub fn no_plan_runs()
    ensures { NoPlanRuns }
{}

/// In a problem that is read, what takes no time has a condition at its start alone.
pub fn read_actions_are_plain()
    ensures { ReadActionsArePlain }
{}

/// The times of the events of a problem have denominators from 1 on.
pub fn events_are_proper()
    ensures { EventsAreProper }
{}
