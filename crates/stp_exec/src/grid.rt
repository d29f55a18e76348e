//! The base grid of a plan.

ghost use Rattle.std.specs.Prelude.{◌≡◌, ◌≤◌, true, All, IfSome, map, flat_map};
ghost use Rattle.stp_base.specs.declared.limits.TheConstants.{MAX_GRID};
ghost use Rattle.stp_frac.specs.Divisors.{lcm};
ghost use Rattle.stp_frac.specs.Fractions.{value_of, up_to};
ghost use Rattle.stp_schema.specs.Timed.{timed_fact_of, timed_facts_of};
ghost use Rattle.stp_exec.specs.Timed.{plain_timed, denominators, event_denominators, common_multiple, base_grid, lies_on, event_lies_on};
ghost use Rattle.stp_exec.specs.TimeViews.{plain_times};

use crate::held::Held;
use crate::timed_step::TimedStep;
use crate::times::Times;
use stp_base::limits::MAX_GRID;
use stp_frac::Frac;
use stp_schema::TimedFact;

/// A grid on which a number lies besides, where it has at most 999,999,999 moments in a unit of time.
pub(crate) fn join(grid: u128, number: Frac) -> Option<u128>
    requires low { 1 ≤ grid }
    requires high { grid ≤ MAX_GRID }
    ensures value { result ≡ up_to MAX_GRID (lcm grid (value_of number).bottom) }
    ensures low { IfSome result (λ joint. 1 ≤ joint) }
    ensures high { IfSome result (λ joint. joint ≤ MAX_GRID) }
{
    Frac::join_grid(grid, number, MAX_GRID)
}

/// A grid on which a step lies besides, where it has at most 999,999,999 moments in a unit of time.
fn join_step(grid: u128, step: &TimedStep) -> Option<u128>
    requires low { 1 ≤ grid }
    requires high { grid ≤ MAX_GRID }
    ensures value { result ≡ up_to MAX_GRID (lcm grid (common_multiple (denominators (plain_timed step.now)))) }
    ensures low { IfSome result (λ joint. 1 ≤ joint) }
    ensures high { IfSome result (λ joint. joint ≤ MAX_GRID) }
{
    let Some(grid) = join(grid, step.start) else {
        return None;
    };
    match step.held {
        Held::Instant => Some(grid),
        Held::Fixed(duration) => join(grid, duration),
        Held::Open(low, high) => {
            let Some(grid) = join(grid, low) else {
                return None;
            };
            join(grid, high)
        }
    }
}

/// A grid on which these steps lie besides, where it has at most 999,999,999 moments in a unit of time.
fn join_steps(grid: u128, steps: &[TimedStep]) -> Option<u128>
    requires low { 1 ≤ grid }
    requires high { grid ≤ MAX_GRID }
    ensures value { result ≡ up_to MAX_GRID (lcm grid (common_multiple (flat_map denominators (map plain_timed steps.now)))) }
    ensures low { IfSome result (λ joint. 1 ≤ joint) }
    ensures high { IfSome result (λ joint. joint ≤ MAX_GRID) }
{
    let mut joint = grid;
    for step in steps {
        let Some(next) = join_step(joint, step) else {
            return None;
        };
        joint = next;
    }
    Some(joint)
}

/// A grid on which both bounds of an event lie besides, where it has at most 999,999,999 moments in a unit of time.
fn join_event(grid: u128, event: &TimedFact<'_>) -> Option<u128>
    requires low { 1 ≤ grid }
    requires high { grid ≤ MAX_GRID }
    ensures value { result ≡ up_to MAX_GRID (lcm grid (common_multiple (event_denominators (timed_fact_of event.now)))) }
    ensures low { IfSome result (λ joint. 1 ≤ joint) }
    ensures high { IfSome result (λ joint. joint ≤ MAX_GRID) }
{
    let Some(grid) = join(grid, event.low) else {
        return None;
    };
    join(grid, event.high)
}

/// A grid on which these events lie besides, where it has at most 999,999,999 moments in a unit of time.
fn join_events(grid: u128, events: &[TimedFact<'_>]) -> Option<u128>
    requires low { 1 ≤ grid }
    requires high { grid ≤ MAX_GRID }
    ensures value { result ≡ up_to MAX_GRID (lcm grid (common_multiple (flat_map event_denominators (timed_facts_of events.now)))) }
    ensures low { IfSome result (λ joint. 1 ≤ joint) }
    ensures high { IfSome result (λ joint. joint ≤ MAX_GRID) }
{
    let mut joint = grid;
    for event in events {
        let Some(next) = join_event(joint, event) else {
            return None;
        };
        joint = next;
    }
    Some(joint)
}

/// The least number of moments in a unit of time at which all of the steps start and may end at moments, and all events
/// come between moments, where it is at most 999,999,999.
pub fn grid_of(times: &Times<'_>) -> Option<u128>
    ensures value { result ≡ up_to MAX_GRID (base_grid (plain_times times.now)) }
    ensures base { IfSome result (λ grid. grid ≡ base_grid (plain_times times.now)) }
    ensures low { IfSome result (λ grid. 1 ≤ grid) }
    ensures high { IfSome result (λ grid. grid ≤ MAX_GRID) }
    ensures steps { IfSome result (λ grid. All (λ step. lies_on grid (plain_timed step) ≡ true) times.now.steps.items) }
    ensures events { IfSome result (λ grid. All (λ e. event_lies_on grid e ≡ true) (timed_facts_of times.now.events.now)) }
{
    let Some(grid) = join_steps(1, &times.steps) else {
        return None;
    };
    join_events(grid, times.events)
}
