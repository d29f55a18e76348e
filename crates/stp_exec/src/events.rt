//! The events of boxes.

ghost use Rattle.std.specs.Prelude.{◌≡◌, ◌≤◌, true, not, length, map, filter, All, IfOk};
ghost use Rattle.stp_base.specs.declared.limits.TheConstants.{MAX_EVENTS, MAX_GRID, MAX_TIMED};
ghost use Rattle.stp_schema.specs.Timed.{AreTimedFacts, IsTimedFact, is_chosen, timed_fact_of, timed_facts_of};
ghost use Rattle.stp_ground.specs.Worlds.{problem_in};
ghost use Rattle.stp_happen.specs.Owners.{timed_before};
ghost use Rattle.stp_happen.specs.Sound.{is_ascending};
ghost use Rattle.stp_happen.specs.SoundBox.{IsBoxTimed};
ghost use Rattle.stp_happen.specs.StepViews.{plain_timed, timed_of};
ghost use Rattle.stp_exec.specs.Timed.{event_lies_on};
ghost use Rattle.stp_exec.specs.Plans.{timed_in};

use crate::moments::count;
use bumpalo::Bump;
use std::alloc::Global;
use stp_base::{List, Memory};
use stp_ground::{World, ground_event};
use stp_happen::BoxTimed;
use stp_schema::TimedFact;
use stp_tables::AtomTable;

/// Whether the environment chooses the moment of an event.
pub(crate) fn is_chosen(event: &TimedFact<'_>) -> bool
    ensures { result ≡ is_chosen (timed_fact_of event.now) }
{
    event.low.compare(event.high).is_lt()
}

/// An event of the environment on a grid, over a table of atoms.
fn box_event<'a>(
    alloc: Global,
    arena: &'a Bump,
    table: &AtomTable,
    grid: u128,
    event: &TimedFact<'_>,
) -> Result<BoxTimed<'a>, Memory>
    requires low { 1 ≤ grid }
    requires high { grid ≤ MAX_GRID }
    requires kept { IsTimedFact (timed_fact_of event.now) }
    requires lies { event_lies_on grid (timed_fact_of event.now) ≡ true }
    ensures stands { IfOk result (λ r. plain_timed r ≡ timed_in table.now grid (timed_fact_of event.now)) }
    ensures sound { IfOk result (λ r. IsBoxTimed grid (length table.now) r) }
{
    let happens = ground_event(alloc, arena, table, event)?;
    let low = count(grid, event.low);
    let high = count(grid, event.high);
    let uncertain = is_chosen(event);
    Ok(BoxTimed {
        low,
        high,
        uncertain,
        event: happens,
    })
}

/// These events on a grid, over a table of atoms.
fn box_all<'a>(
    alloc: Global,
    arena: &'a Bump,
    table: &AtomTable,
    grid: u128,
    events: &[TimedFact<'_>],
) -> Result<List<BoxTimed<'a>>, Memory>
    requires low { 1 ≤ grid }
    requires high { grid ≤ MAX_GRID }
    requires kept { All IsTimedFact (timed_facts_of events.now) }
    requires lie { All (λ e. event_lies_on grid e ≡ true) (timed_facts_of events.now) }
    ensures stand { IfOk result (λ r. timed_of r ≡ map (timed_in table.now grid) (timed_facts_of events.now)) }
    ensures sound { IfOk result (λ r. All (IsBoxTimed grid (length table.now)) r) }
{
    let mut timed = List::new(alloc);
    for event in events {
        timed.push(box_event(alloc, arena, table, grid, event)?)?;
    }
    Ok(timed)
}

/// The events of a problem on a grid, over a table of atoms.
pub(crate) fn box_events<'a>(
    alloc: Global,
    arena: &'a Bump,
    world: &World<'_>,
    table: &AtomTable,
    grid: u128,
) -> Result<List<BoxTimed<'a>>, Memory>
    requires low { 1 ≤ grid }
    requires high { grid ≤ MAX_GRID }
    requires lie { All (λ e. event_lies_on grid e ≡ true) (problem_in world.now).timed }
    ensures stand { IfOk result (λ r. timed_of r ≡ map (timed_in table.now grid) (problem_in world.now).timed) }
    ensures sound { IfOk result (λ r. All (IsBoxTimed grid (length table.now)) r) }
    ensures few_fixed { IfOk result (λ r. length (filter (λ e. not e.uncertain) (timed_of r)) ≤ MAX_TIMED) }
    ensures few_chosen { IfOk result (λ r. length (filter (λ e. e.uncertain) (timed_of r)) ≤ MAX_EVENTS) }
    ensures ordered { IfOk result (λ r. is_ascending timed_before (timed_of r) ≡ true) }
{
    let timed = box_all(alloc, arena, table, grid, world.problem.timed)?;
    Ok(timed)
}
