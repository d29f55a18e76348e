//! How long instances last, and the grid of a task.

ghost use Rattle.std.specs.Prelude.{◌≡◌, ◌≤◌, ◌<◌, ◌^◌, ◌++◌, map, length, IfSome, IfOk, OnOk};
ghost use Rattle.stp_base.specs.declared.limits.TheConstants.{MAX_DURATION_GRID};
ghost use Rattle.stp_frac.specs.Fractions.{value_of, up_to};
ghost use Rattle.stp_schema.specs.Timed.{timed_facts_of};
ghost use Rattle.stp_task.specs.Durations.{plain_duration};
ghost use Rattle.stp_kept.specs.KeptTasks.{LieOn, bounds_of_instances, duration_bounds, event_times, first_too_long, grid_of_times, is_long, is_longer, longest};
ghost use Rattle.stp_kept.specs.Views.{instance_views};

use crate::instance::Instance;
use std::alloc::Global;
use stp_base::Memory;
use stp_base::limits::{MAX_DURATION, MAX_DURATION_GRID};
use stp_frac::Frac;
use stp_schema::TimedFact;
use stp_task::Duration;

/// The greatest time that an action may last.
fn longest() -> Frac
    ensures { value_of result ≡ longest }
{
    let Some(longest) = Frac::from_grid(MAX_DURATION, 1) else {
        unreachable!();
    };
    longest
}

/// Whether a time is greater than that.
fn is_longer(time: Frac) -> bool
    ensures { result ≡ is_longer (value_of time) }
{
    longest().compare(time).is_lt()
}

/// Whether an action may last longer than is accepted.
fn is_long(duration: Duration) -> bool
    ensures { result ≡ is_long (plain_duration duration) }
{
    match duration {
        Duration::Instant => false,
        Duration::Controlled(low, high) | Duration::Uncertain(low, high) => {
            is_longer(low) || is_longer(high)
        }
    }
}

/// The number, from 1, of the first instance that may last longer than is accepted.
pub(crate) fn first_too_long(instances: &[Instance<'_>]) -> Option<u32>
    requires { length instances.now < 2 ^ 32 }
    ensures { result ≡ first_too_long (instance_views instances.now) }
{
    let mut number = 0;
    for instance in instances {
        number += 1;
        if is_long(instance.duration) {
            return Some(number);
        }
    }
    None
}

/// Puts the bounds of a duration at the end.
fn put_bounds(times: &mut Vec<Frac>, duration: Duration) -> Result<(), Memory>
    ensures { OnOk result
        (map value_of times.new.items ≡ map value_of times.old.items ++ duration_bounds (plain_duration duration)) }
{
    match duration {
        Duration::Instant => {}
        Duration::Controlled(low, high) | Duration::Uncertain(low, high) => {
            times.push(low)?;
            times.push(high)?;
        }
    }
    Ok(())
}

/// Puts the bounds of all of these instances at the end.
fn put_all_bounds(times: &mut Vec<Frac>, instances: &[Instance<'_>]) -> Result<(), Memory>
    ensures { OnOk result
        (map value_of times.new.items ≡ map value_of times.old.items ++ bounds_of_instances (instance_views instances.now)) }
{
    for instance in instances {
        put_bounds(times, instance.duration)?;
    }
    Ok(())
}

/// Puts the times of these events at the end.
fn put_times(times: &mut Vec<Frac>, events: &[TimedFact<'_>]) -> Result<(), Memory>
    ensures { OnOk result
        (map value_of times.new.items ≡ map value_of times.old.items ++ event_times (timed_facts_of events.now)) }
{
    for event in events {
        times.push(event.high)?;
    }
    Ok(())
}

/// The least common multiple of the denominators of these, where it is small enough.
fn grid_of(times: &[Frac]) -> Option<u128>
    ensures value { result ≡ up_to MAX_DURATION_GRID (grid_of_times (map value_of times.now)) }
{
    let mut grid = 1;
    let mut at = times.len();
    'joins: while at > 0 {
        at -= 1;
        let Some(joint) = Frac::join_grid(grid, times[at], MAX_DURATION_GRID) else {
            return None;
        };
        grid = joint;
    }
    Some(grid)
}

/// The grid of these instances and events, where it is coarse enough.
pub(crate) fn grid_of_all(
    alloc: Global,
    instances: &[Instance<'_>],
    events: &[TimedFact<'_>],
) -> Result<Option<u128>, Memory>
    ensures value { IfOk result
        (λ r. r ≡ up_to MAX_DURATION_GRID (grid_of_times (bounds_of_instances (instance_views instances.now) ++ event_times (timed_facts_of events.now)))) }
    ensures lie { IfOk result (λ r. IfSome r (λ grid. LieOn grid (timed_facts_of events.now))) }
{
    let mut times = Vec::new(alloc);
    put_all_bounds(&mut times, instances)?;
    put_times(&mut times, events)?;
    Ok(grid_of(&times))
}
