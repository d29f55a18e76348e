//! Steps in time.

use crate::held::Held;
use stp_frac::Frac;

/// A step in time: when it starts, and how long it lasts.
#[derive(Clone, Copy, Debug, PartialEq, Eq)]
pub struct TimedStep {
    /// When it starts.
    pub start: Frac,
    /// How long it lasts.
    pub held: Held,
}
