//! Steps that end too late.

ghost use Rattle.std.specs.Prelude.{◌≡◌, ◌≤◌, ◌<◌, ◌^◌, true, length, map, All, option_map};
ghost use Rattle.stp_base.specs.declared.limits.TheConstants.{MAX_GRID};
ghost use Rattle.stp_exec.specs.Timed.{plain_timed, is_lawful_timed, lies_on, is_too_late, first_too_late};

use crate::moments::moments_on;
use crate::timed_step::TimedStep;
use stp_base::StepId;
use stp_base::limits::MAX_TIME;

/// Whether a step starts, or may end, after 999,999,999.
fn is_late(grid: u128, step: &TimedStep) -> bool
    requires low { 1 ≤ grid }
    requires high { grid ≤ MAX_GRID }
    requires lawful { is_lawful_timed (plain_timed step.now) ≡ true }
    requires lies { lies_on grid (plain_timed step.now) ≡ true }
    ensures { result ≡ is_too_late (plain_timed step.now) }
{
    moments_on(grid, step).high > MAX_TIME * grid
}

/// The first step that starts, or may end, after 999,999,999. All of them lie on the grid.
pub fn first_late(grid: u128, steps: &[TimedStep]) -> Option<StepId>
    requires low { 1 ≤ grid }
    requires high { grid ≤ MAX_GRID }
    requires few { length steps.now < 2 ^ 32 }
    requires lawful { All (λ step. is_lawful_timed (plain_timed step) ≡ true) steps.now }
    requires lies { All (λ step. lies_on grid (plain_timed step) ≡ true) steps.now }
    ensures { option_map (λ step. step.0) result ≡ first_too_late (map plain_timed steps.now) }
{
    for (index, step) in steps.iter().enumerate() {
        if is_late(grid, step) {
            return Some(StepId(index as u32 + 1));
        }
    }
    None
}
