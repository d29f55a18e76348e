//! Boxes of plans with their times.

ghost use Rattle.std.specs.Prelude.{◌≡◌, ◌≤◌};
ghost use Rattle.stp_base.specs.declared.limits.TheConstants.{MAX_GRID};
ghost use Rattle.stp_exec.specs.Timed.{base_grid};
ghost use Rattle.stp_exec.specs.TimeViews.{plain_times};

use crate::times::Times;
use stp_happen::BoxRun;

/// The box of a plan on its base grid, and the times of its steps and events.
#[derive(Drop)]
pub struct BoxedPlan<'a> {
    pub boxed: BoxRun<'a>,
    pub times: Times<'a>,
    pub ghost base: { boxed.grid ≡ base_grid (plain_times times) },
    pub ghost high: { boxed.grid ≤ MAX_GRID },
}
