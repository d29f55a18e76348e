//! The ground actions and the events of a task.

ghost use Rattle.std.specs.Prelude.{◌≡◌, All, map, length, IfOk};
ghost use Rattle.std.specs.List.{list_any};
ghost use Rattle.stp_schema.specs.Timed.{is_chosen, timed_fact_of, timed_facts_of};
ghost use Rattle.stp_cond.specs.Events.{IsEventInRange};
ghost use Rattle.stp_task.specs.Actions.{action_of};
ghost use Rattle.stp_task.specs.SoundTask.{IsActionInRange};
ghost use Rattle.stp_task.specs.Tasks.{timed_event_of};
ghost use Rattle.stp_ground.specs.Ground.{action_by};
ghost use Rattle.stp_ground.specs.Views.{chosen_view};
ghost use Rattle.stp_ground.specs.Worlds.{problem_in};
ghost use Rattle.stp_kept.specs.KeptTasks.{timed_event_by};

use bumpalo::Bump;
use std::alloc::Global;
use stp_base::{List, Memory};
use stp_ground::{Chosen, World, ground, ground_event};
use stp_schema::TimedFact;
use stp_tables::AtomTable;
use stp_task::{GroundAction, TimedEvent};

/// The ground actions of what is chosen, over a table of atoms.
pub(crate) fn ground_actions<'a>(
    alloc: Global,
    arena: &'a Bump,
    world: &World<'_>,
    table: &AtomTable,
    chosen: &[Chosen<'a>],
) -> Result<List<GroundAction<'a>>, Memory>
    ensures actions { IfOk result
        (λ r. map action_of r ≡ map (action_by (problem_in world.now) table.now) (map chosen_view chosen.now)) }
    ensures in_range { IfOk result (λ r. All (IsActionInRange (length table.now)) r) }
{
    let mut actions = List::new(alloc);
    for one in chosen {
        let action = ground(alloc, arena, world, table, one)?;
        actions.push(action)?;
    }
    Ok(actions)
}

/// What an event of the environment does over a table of atoms, at its time.
fn ground_one<'a>(
    alloc: Global,
    arena: &'a Bump,
    table: &AtomTable,
    fact: &TimedFact<'_>,
) -> Result<TimedEvent<'a>, Memory>
    ensures event { IfOk result (λ r. timed_event_of r ≡ timed_event_by table.now (timed_fact_of fact.now)) }
    ensures in_range { IfOk result (λ r. IsEventInRange (length table.now) r.event) }
{
    let event = ground_event(alloc, arena, table, fact)?;
    Ok(TimedEvent {
        at: fact.high,
        event,
    })
}

/// What the events of the environment do over a table of atoms.
pub(crate) fn ground_events<'a>(
    alloc: Global,
    arena: &'a Bump,
    table: &AtomTable,
    facts: &[TimedFact<'_>],
) -> Result<List<TimedEvent<'a>>, Memory>
    ensures events { IfOk result
        (λ r. map timed_event_of r ≡ map (timed_event_by table.now) (timed_facts_of facts.now)) }
    ensures in_range { IfOk result (λ r. All (λ e. IsEventInRange (length table.now) e.event) r) }
{
    let mut events = List::new(alloc);
    for fact in facts {
        let event = ground_one(alloc, arena, table, fact)?;
        events.push(event)?;
    }
    Ok(events)
}

/// Whether the environment chooses the time of an event.
fn is_chosen(fact: &TimedFact<'_>) -> bool
    ensures { result ≡ is_chosen (timed_fact_of fact.now) }
{
    fact.low.compare(fact.high).is_lt()
}

/// Whether the environment chooses the time of one of these events.
pub(crate) fn has_chosen(facts: &[TimedFact<'_>]) -> bool
    ensures { result ≡ list_any is_chosen (timed_facts_of facts.now) }
{
    for fact in facts {
        if is_chosen(fact) {
            return true;
        }
    }
    false
}
