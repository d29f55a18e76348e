//! Why a run does not execute.

use stp_base::StepId;

/// Why a run does not execute, with the moment on the run's grid and the steps.
#[derive(Clone, Copy, Debug, PartialEq, Eq)]
pub enum Fault {
    /// Two steps of one ground action run at a common moment, at the latest from the greater start on.
    Overlap {
        time: u128,
        first: StepId,
        second: StepId,
    },
    /// Two events of one moment interfere.
    Interference {
        time: u128,
        first: StepId,
        second: StepId,
    },
    /// An event does not find what it needs in the state before its moment.
    Condition {
        time: u128,
        step: StepId,
    },
    /// What has to hold inside a step does not hold after a moment within.
    OverAll {
        time: u128,
        step: StepId,
    },
    /// The goal does not hold at the end.
    Goal,
}
