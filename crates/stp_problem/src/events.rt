//! The events of the environment of a problem.

ghost use Rattle.std.specs.Prelude.{◌≡◌, ℕ, not, ◌&&◌, ◌++◌, map, None, Some, Err, IfOk, OnOk};
ghost use Rattle.std.specs.Ordering.{is_eq};
ghost use Rattle.stp_refusal.specs.declared.code.Code.{Code as TheCode};
ghost use Rattle.stp_refusal.specs.Phases.{chosen};
ghost use Rattle.stp_refusal.specs.Read.{Finds};
ghost use Rattle.stp_frac.specs.Fractions.{value_of, order_of};
ghost use Rattle.stp_schema.specs.Timed.{AreTimedFacts, literal_of, timed_facts_of};
ghost use Rattle.stp_problem.specs.Events.{is_open, literals_at, event_at, open_event, open_items, events_at, events_of, too_many, events_wrong};
ghost use Rattle.stp_problem.specs.TimedViews.{timed_item_of, timed_items_of, times_of};

use crate::timed_item::TimedItem;
use crate::times::{is_open, read_times};
use bumpalo::Bump;
use std::alloc::Global;
use stp_base::limits::MAX_EVENTS;
use stp_base::{List, Memory};
use stp_frac::Frac;
use stp_refusal::{Code, Offence, ReadFault, end_phase, note};
use stp_schema::{TimedFact, TimedLiteral};

/// Whether an item tells literals that come at this time.
fn is_at(item: &TimedItem<'_>, time: Frac) -> bool
    ensures { result ≡ (not (is_open (timed_item_of item.now)) && is_eq (order_of (timed_item_of item.now).low (value_of time))) }
{
    !is_open(item) && item.window.low.compare(time).is_eq()
}

/// The literals of the items at a time, in the order of the text.
fn literals_at<'a>(
    alloc: Global,
    arena: &'a Bump,
    items: &[TimedItem<'a>],
    time: Frac,
) -> Result<&'a [TimedLiteral<'a>], Memory>
    ensures { IfOk result (λ r. map literal_of r.now ≡ literals_at (value_of time) (timed_items_of items.now)) }
{
    let mut out = Vec::new(alloc);
    for item in items {
        if is_at(item, time) {
            out.extend_from_slice(item.literals)?;
        }
    }
    let out = arena.try_alloc_slice_copy(out.as_slice())?;
    Ok(out)
}

/// Adds the events at these times.
fn add_events<'a>(
    alloc: Global,
    arena: &'a Bump,
    items: &[TimedItem<'a>],
    times: &[Frac],
    out: &mut List<TimedFact<'a>>,
) -> Result<(), Memory>
    ensures { OnOk result
        (timed_facts_of out.new ≡ timed_facts_of out.old ++ map (event_at (timed_items_of items.now)) (times_of times.now)) }
{
    for time in times {
        let literals = literals_at(alloc, arena, items, *time)?;
        out.push(TimedFact {
            low: *time,
            high: *time,
            literals,
        })?;
    }
    Ok(())
}

/// The items of events whose times the environment chooses.
fn open_items<'a>(alloc: Global, items: &[TimedItem<'a>]) -> Result<List<TimedItem<'a>>, Memory>
    ensures { IfOk result (λ r. timed_items_of r ≡ open_items (timed_items_of items.now)) }
{
    let mut out = List::new(alloc);
    for item in items {
        if is_open(item) {
            out.push(*item)?;
        }
    }
    Ok(out)
}

/// Adds the events of these items.
fn add_open<'a>(items: &[TimedItem<'a>], out: &mut List<TimedFact<'a>>) -> Result<(), Memory>
    ensures { OnOk result
        (timed_facts_of out.new ≡ timed_facts_of out.old ++ map open_event (timed_items_of items.now)) }
{
    for item in items {
        out.push(TimedFact {
            low: item.window.low,
            high: item.window.high,
            literals: item.literals,
        })?;
    }
    Ok(())
}

/// Looks for more events whose times the environment chooses than are accepted.
fn judge_open(items: &[TimedItem<'_>], first: &mut Option<Offence>)
    ensures { Finds first.old first.new (too_many (timed_items_of items.now)) }
{
    if let Some(item) = items.get(MAX_EVENTS) {
        note(first, item.at, Code::P17);
    }
}

/// The events at these times, and those of the open ones of the items.
fn events_at<'a>(
    alloc: Global,
    arena: &'a Bump,
    items: &[TimedItem<'a>],
    times: &[Frac],
    others: &[TimedItem<'a>],
) -> Result<&'a [TimedFact<'a>], Memory>
    requires { timed_items_of others.now ≡ open_items (timed_items_of items.now) }
    ensures { IfOk result (λ r. timed_facts_of r.now ≡ events_at (times_of times.now) (timed_items_of items.now)) }
{
    let mut out = List::new(alloc);
    add_events(alloc, arena, items, times, &mut out)?;
    add_open(others, &mut out)?;
    let out = arena.try_alloc_slice_copy(out.as_slice())?;
    Ok(out)
}

/// The events that items tell: those at fixed times by time, and then those whose times the environment chooses. Too many
/// times are refused, and then too many of the others.
pub fn read_events<'a>(
    alloc: Global,
    arena: &'a Bump,
    items: &[TimedItem<'a>],
) -> Result<&'a [TimedFact<'a>], ReadFault>
    ensures events { IfOk result (λ r. timed_facts_of r.now ≡ events_of (timed_items_of items.now)) }
    ensures lawful { IfOk result (λ r. AreTimedFacts (timed_facts_of r.now)) }
    ensures ok { OnOk result (chosen (events_wrong (timed_items_of items.now)) ≡ None) }
    ensures refused { (code : TheCode) (place : ℕ) → result ≡ Err (ReadFault.Refused code place)
        → chosen (events_wrong (timed_items_of items.now)) ≡ Some (record { at = place; code = code }) }
{
    let mut first = None;
    let times = read_times(alloc, items, &mut first)?;
    end_phase(first)?;
    let others = open_items(alloc, items)?;
    let mut first = None;
    judge_open(others.as_slice(), &mut first);
    end_phase(first)?;
    let events = events_at(alloc, arena, items, times.as_slice(), others.as_slice())?;
    Ok(events)
}
