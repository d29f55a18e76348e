//! Durations that are chosen for the steps that stay open, and moments for the events that do.

ghost use Rattle.std.specs.Prelude.{◌≡◌, ◌≢◌, ◌≤◌, ◌<◌, ◌^◌, ◌++◌, true, false, Some, None, length, map, flat_map, option_map, All, IfOk, IfErr, IfSome, OnOk};
ghost use Rattle.stp_base.specs.declared.limits.TheConstants.{MAX_GRID};
ghost use Rattle.stp_frac.specs.Divisors.{lcm, divides};
ghost use Rattle.stp_frac.specs.Fractions.{value_of, is_below_zero, up_to};
ghost use Rattle.stp_exec.specs.Held.{plain_held};
ghost use Rattle.stp_schema.specs.Timed.{timed_fact_of, timed_facts_of};
ghost use Rattle.stp_exec.specs.Timed.{plain_timed, common_multiple, base_grid, count_of};
ghost use Rattle.stp_exec.specs.TimeViews.{plain_times};
ghost use Rattle.stp_exec.specs.Fitting.{plain_bounds, held_bounds, step_bounds, event_bounds, open_bounds, outside_from, bottoms, grid_with, judge_list, refusal_of};

use crate::events::is_chosen;
use crate::grid::join;
use crate::held::{Held, is_within};
use crate::moments::count;
use crate::timed_step::TimedStep;
use crate::times::Times;
use std::alloc::Global;
use stp_base::{List, Memory};
use stp_frac::Frac;
use stp_refusal::{Code, ReadFault};
use stp_schema::TimedFact;

/// The bounds of a step or an event that stays open.
#[derive(Clone, Copy)]
pub(crate) struct Bounds {
    /// The least duration, or the first moment.
    low: Frac,
    /// The greatest duration, or the last moment.
    high: Frac,
}

/// Durations and moments as whole numbers on a grid.
#[derive(Drop)]
pub struct Fitted {
    /// The moments in a unit of time.
    pub grid: u128,
    /// The durations in order, and then the moments of events.
    pub durations: List<u128>,
}

/// Puts the bounds of a held time at the end of a list, if it stays open.
fn push_bounds(bounds: &mut List<Bounds>, held: Held) -> Result<(), Memory>
    ensures { OnOk result (map plain_bounds bounds.new ≡ map plain_bounds bounds.old ++ held_bounds (plain_held held)) }
{
    match held {
        Held::Instant => Ok(()),
        Held::Fixed(_) => Ok(()),
        Held::Open(low, high) => bounds.push(Bounds { low, high }),
    }
}

/// Puts the bounds of the steps that stay open at the end of a list, in order.
fn push_steps(bounds: &mut List<Bounds>, steps: &[TimedStep]) -> Result<(), Memory>
    ensures { OnOk result (map plain_bounds bounds.new ≡ map plain_bounds bounds.old ++ flat_map step_bounds (map plain_timed steps.now)) }
{
    for step in steps {
        push_bounds(bounds, step.held)?;
    }
    Ok(())
}

/// Puts the bounds of an event at the end of a list, if it stays open.
fn push_event(bounds: &mut List<Bounds>, event: &TimedFact<'_>) -> Result<(), Memory>
    ensures { OnOk result (map plain_bounds bounds.new ≡ map plain_bounds bounds.old ++ event_bounds (timed_fact_of event.now)) }
{
    if !is_chosen(event) {
        return Ok(());
    }
    bounds.push(Bounds {
        low: event.low,
        high: event.high,
    })
}

/// Puts the bounds of the events that stay open at the end of a list, in order.
fn push_events(bounds: &mut List<Bounds>, events: &[TimedFact<'_>]) -> Result<(), Memory>
    ensures { OnOk result (map plain_bounds bounds.new ≡ map plain_bounds bounds.old ++ flat_map event_bounds (timed_facts_of events.now)) }
{
    for event in events {
        push_event(bounds, event)?;
    }
    Ok(())
}

/// The bounds of the steps that stay open, in order, and then those of the events that do.
fn bounds_of(alloc: Global, times: &Times<'_>) -> Result<List<Bounds>, Memory>
    ensures { IfOk result (λ bounds. map plain_bounds bounds ≡ open_bounds (plain_times times.now)) }
{
    let mut bounds = List::new(alloc);
    push_steps(&mut bounds, &times.steps)?;
    push_events(&mut bounds, times.events)?;
    Ok(bounds)
}

/// The number, from 1, of the first duration that is not within its bounds.
fn first_outside(bounds: &[Bounds], durations: &[Frac]) -> Option<u32>
    requires even { length durations.now ≡ length bounds.now }
    requires few { length durations.now < 2 ^ 32 }
    ensures { result ≡ outside_from 1 (map plain_bounds bounds.now) (map value_of durations.now) }
{
    for (index, bound) in bounds.iter().enumerate() {
        if !is_within(bound.low, bound.high, durations[index]) {
            return Some(index as u32 + 1);
        }
    }
    None
}

/// A grid on which durations lie besides, where it has at most 999,999,999 moments in a unit of time.
fn join_all(grid: u128, durations: &[Frac]) -> Option<u128>
    requires low { 1 ≤ grid }
    requires high { grid ≤ MAX_GRID }
    ensures value { result ≡ up_to MAX_GRID (lcm grid (common_multiple (bottoms (map value_of durations.now)))) }
    ensures low { IfSome result (λ joint. 1 ≤ joint) }
    ensures high { IfSome result (λ joint. joint ≤ MAX_GRID) }
    ensures lies { IfSome result (λ joint. All (λ d. divides (value_of d).bottom joint ≡ true) durations.now) }
{
    let mut joint = grid;
    for duration in durations {
        let Some(next) = join(joint, *duration) else {
            return None;
        };
        joint = next;
    }
    Some(joint)
}

/// Durations in moments of a grid on which they lie.
fn counts(alloc: Global, grid: u128, durations: &[Frac]) -> Result<List<u128>, Memory>
    requires low { 1 ≤ grid }
    requires high { grid ≤ MAX_GRID }
    requires above { All (λ d. is_below_zero (value_of d).top ≡ false) durations.now }
    requires lies { All (λ d. divides (value_of d).bottom grid ≡ true) durations.now }
    ensures { IfOk result (λ counts. counts ≡ map (count_of grid) (map value_of durations.now)) }
{
    let mut counts = List::new(alloc);
    for duration in durations {
        counts.push(count(grid, *duration))?;
    }
    Ok(counts)
}

/// Durations for the steps that stay open, and then moments for the events that do, on the least grid on which they lie
/// with the plan, whose grid is given; or why they are refused: V02 where there are more or fewer, V03 for the first that
/// is not within its bounds, and V04 where the grid is too fine.
pub fn fit_durations(
    alloc: Global,
    grid: u128,
    times: &Times<'_>,
    durations: &[Frac],
) -> Result<Fitted, ReadFault>
    requires base { grid ≡ base_grid (plain_times times.now) }
    requires high { grid ≤ MAX_GRID }
    requires few { length durations.now < 2 ^ 32 }
    ensures judged { IfOk result (λ _. judge_list (plain_times times.now) (map value_of durations.now) ≡ None) }
    ensures grid { IfOk result (λ fitted. fitted.grid ≡ grid_with (plain_times times.now) (map value_of durations.now)) }
    ensures durations { IfOk result (λ fitted. fitted.durations ≡ map (count_of fitted.grid) (map value_of durations.now)) }
    ensures refused { IfErr result (λ fault. fault ≢ ReadFault.Memory → judge_list (plain_times times.now) (map value_of durations.now) ≡ refusal_of fault) }
{
    let bounds = bounds_of(alloc, times)?;
    if durations.len() != bounds.as_slice().len() {
        return Err(ReadFault::Refused {
            code: Code::V02,
            at: durations.len() as u32,
        });
    }
    if let Some(at) = first_outside(bounds.as_slice(), durations) {
        return Err(ReadFault::Refused {
            code: Code::V03,
            at,
        });
    }
    let Some(grid) = join_all(grid, durations) else {
        return Err(ReadFault::Refused {
            code: Code::V04,
            at: 0,
        });
    };
    let durations = counts(alloc, grid, durations)?;
    Ok(Fitted { grid, durations })
}
