//! Durations.

use stp_frac::Frac;

/// How long an action lasts: no time, or a time between two bounds, which the plan or the environment chooses.
#[derive(Clone, Copy, Debug, PartialEq, Eq)]
pub enum Duration {
    Instant,
    Controlled(Frac, Frac),
    Uncertain(Frac, Frac),
}
