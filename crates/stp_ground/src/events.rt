//! Events of the environment: the numbers of their atoms, and what they do.

ghost use Rattle.std.specs.Prelude.{◌≡◌, Bool, ◌++◌, ◌∷◌, [], flat_map, map, length, if◌then◌else◌, IfOk, OnOk};
ghost use Rattle.stp_schema.specs.Timed.{literal_of, timed_fact_of, timed_facts_of};
ghost use Rattle.stp_cond.specs.Events.{IsEventInRange};
ghost use Rattle.stp_task.specs.Actions.{happening_of};
ghost use Rattle.stp_instance.specs.Numbered.{IsGrown, with_atoms};
ghost use Rattle.stp_instance.specs.Effects.{written_atom, written_atoms};
ghost use Rattle.stp_ground.specs.Problems.{atom_of_literal, atoms_of_event, atoms_of_kind, event_atoms, is_kind};
ghost use Rattle.stp_ground.specs.Ground.{event_by};
ghost use Rattle.stp_ground.specs.Worlds.{problem_in};

use crate::world::World;
use bumpalo::Bump;
use std::alloc::Global;
use stp_base::Memory;
use stp_cond::{Cond, Event};
use stp_instance::{Written, written_numbers};
use stp_schema::{TimedFact, TimedLiteral};
use stp_tables::AtomTable;

/// Numbers the atoms of these literals, in their order.
fn number_literals(table: &mut AtomTable, literals: &[TimedLiteral<'_>]) -> Result<(), Memory>
    ensures atoms { OnOk result
        (table.new ≡ with_atoms table.old (map atom_of_literal (map literal_of literals.now))) }
    ensures grown { IsGrown table.old table.new }
{
    for literal in literals {
        table.number(literal.predicate, literal.args)?;
    }
    Ok(())
}

/// Numbers the atoms of all of these events, in their order.
fn number_all(table: &mut AtomTable, events: &[TimedFact<'_>]) -> Result<(), Memory>
    ensures atoms { OnOk result
        (table.new ≡ with_atoms table.old (flat_map atoms_of_event (timed_facts_of events.now))) }
    ensures grown { IsGrown table.old table.new }
{
    for event in events {
        number_literals(table, event.literals)?;
    }
    Ok(())
}

/// Numbers the atoms of a problem's events, in their order.
pub fn number_events(world: &World<'_>, table: &mut AtomTable) -> Result<(), Memory>
    ensures atoms { OnOk result (table.new ≡ with_atoms table.old (event_atoms (problem_in world.now))) }
    ensures grown { IsGrown table.old table.new }
{
    number_all(table, world.problem.timed)?;
    Ok(())
}

/// Whether a literal adds its atom, or whether it deletes it.
fn is_kind(adds: bool, literal: &TimedLiteral<'_>) -> bool
    ensures { result ≡ is_kind adds (literal_of literal.now) }
{
    if adds { literal.adds } else { !literal.adds }
}

/// Puts the atom of a literal at the end.
fn keep<'a>(out: &mut Vec<Written<'a>>, literal: &TimedLiteral<'a>) -> Result<(), Memory>
    ensures { OnOk result
        (written_atoms out.new.items ≡ written_atoms out.old.items ++ atom_of_literal (literal_of literal.now) ∷ []) }
{
    out.push(Written {
        predicate: literal.predicate,
        args: literal.args,
    })?;
    Ok(())
}

/// The atoms that these literals add, or those that they delete.
fn written<'a>(
    alloc: Global,
    adds: bool,
    literals: &[TimedLiteral<'a>],
) -> Result<Vec<Written<'a>>, Memory>
    ensures { IfOk result (λ r. written_atoms r.items ≡ atoms_of_kind adds (map literal_of literals.now)) }
{
    let mut out = Vec::new(alloc);
    for literal in literals {
        if is_kind(adds, literal) {
            keep(&mut out, literal)?;
        }
    }
    Ok(out)
}

/// What an event of the environment does. It needs nothing and reads nothing, and an atom that it both adds and deletes
/// it adds.
pub fn ground_event<'a>(
    alloc: Global,
    arena: &'a Bump,
    table: &AtomTable,
    event: &TimedFact<'_>,
) -> Result<Event<'a>, Memory>
    ensures event { IfOk result (λ e. happening_of e ≡ event_by table.now (timed_fact_of event.now)) }
    ensures in_range { IfOk result (λ e. IsEventInRange (length table.now) e) }
{
    let adds = written(alloc, true, event.literals)?;
    let dels = written(alloc, false, event.literals)?;
    let (added, deleted) = written_numbers(alloc, arena, table, &adds, &dels)?;
    let cond = arena.try_alloc(Cond::True)?;
    Ok(Event {
        cond,
        reads: &[],
        adds: added,
        dels: deleted,
    })
}
