//! The times of timed literals.

ghost use Rattle.std.specs.Prelude.{◌≡◌, ◌≤◌, length, IfSome, IfOk, OnOk};
ghost use Rattle.stp_refusal.specs.Read.{IsRead};
ghost use Rattle.stp_frac.specs.Fractions.{value_of};
ghost use Rattle.stp_problem.specs.Events.{is_open, has_time, place_from, with_time, with_item_time, times_read};
ghost use Rattle.stp_problem.specs.TimedViews.{timed_item_of, timed_items_of, times_of};

use crate::timed_item::TimedItem;
use std::alloc::Global;
use std::cmp::Ordering;
use stp_base::Memory;
use stp_base::limits::MAX_TIMED;
use stp_frac::Frac;
use stp_refusal::{Code, Offence, note};

/// Whether the environment chooses the time of an item's event.
pub fn is_open(item: &TimedItem<'_>) -> bool
    ensures { result ≡ is_open (timed_item_of item.now) }
{
    item.window.low.compare(item.window.high).is_lt()
}

/// Where a time is to stand among others in order; nowhere where it is one of them.
fn place_of(times: &[Frac], time: Frac) -> Option<usize>
    ensures place { result ≡ place_from 0 (value_of time) (times_of times.now) }
    ensures within { IfSome result (λ place. place ≤ length times.now) }
{
    let mut place = 0;
    for other in times {
        match time.compare(*other) {
            Ordering::Less => return Some(place),
            Ordering::Equal => return None,
            Ordering::Greater => place += 1,
        }
    }
    Some(place)
}

/// Adds a time to others in order.
fn add_time(times: &mut Vec<Frac>, time: Frac) -> Result<(), Memory>
    ensures { OnOk result (times_of times.new.items ≡ with_time (times_of times.old.items) (value_of time)) }
{
    if let Some(place) = place_of(times.as_slice(), time) {
        times.insert(place, time)?;
    }
    Ok(())
}

/// Whether an item tells literals that come at one time.
fn has_time(item: &TimedItem<'_>) -> bool
    ensures { result ≡ has_time (timed_item_of item.now) }
{
    !is_open(item) && !item.literals.is_empty()
}

/// Adds the time of an item whose literals come at one time.
fn add_item(times: &mut Vec<Frac>, item: &TimedItem<'_>) -> Result<(), Memory>
    ensures { OnOk result (times_of times.new.items ≡ with_item_time (times_of times.old.items) (timed_item_of item.now)) }
{
    if has_time(item) {
        add_time(times, item.window.low)?;
    }
    Ok(())
}

/// The times of timed literals, in order. Notes the first item with one time more than are accepted.
pub fn read_times(
    alloc: Global,
    items: &[TimedItem<'_>],
    first: &mut Option<Offence>,
) -> Result<Vec<Frac>, Memory>
    ensures { IfOk result (λ r. IsRead first.old first.new (times_of r.items) (times_read (timed_items_of items.now))) }
{
    let mut times = Vec::new(alloc);
    for item in items {
        add_item(&mut times, item)?;
        if times.as_slice().len() > MAX_TIMED {
            note(first, item.at, Code::P15);
            return Ok(times);
        }
    }
    Ok(times)
}
