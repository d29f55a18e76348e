//! Which predicates are fluent.

ghost use Rattle.std.specs.Prelude.{◌≡◌, ◌≤◌, [], length, map, IfOk, OnOk};
ghost use Rattle.stp_schema.specs.Formula.{atoms_of};
ghost use Rattle.stp_schema.specs.Schemas.{schema_of};
ghost use Rattle.stp_schema.specs.Timed.{literal_of, timed_facts_of};
ghost use Rattle.stp_schema.specs.Views.{problem_of};
ghost use Rattle.stp_instance.specs.Numbered.{is_fluent};
ghost use Rattle.stp_ground.specs.Problems.{effects_of, is_written};
ghost use Rattle.stp_ground.specs.Marks.{predicate_of, symbol_of, with_effects, with_events, with_mark, with_marks};

use std::alloc::Global;
use stp_base::Memory;
use stp_schema::{LiftedAtom, Problem, Schema, TimedFact, TimedLiteral};

/// Makes a row of marks at least that long. The new marks are false.
fn lengthen(marks: &mut Vec<bool>, count: usize) -> Result<(), Memory>
    ensures same { OnOk result (is_fluent marks.new.items ≡ is_fluent marks.old.items) }
    ensures long { OnOk result (count ≤ length marks.new.items) }
{
    if marks.len() < count {
        marks.resize(count, false)?;
    }
    Ok(())
}

/// Marks a predicate.
fn mark(marks: &mut Vec<bool>, predicate: u32) -> Result<(), Memory>
    ensures { OnOk result (is_fluent marks.new.items ≡ with_mark predicate (is_fluent marks.old.items)) }
{
    let place = predicate as usize;
    lengthen(marks, place + 1)?;
    marks[place] = true;
    Ok(())
}

/// Marks the predicates of these atoms.
fn mark_all(marks: &mut Vec<bool>, atoms: &[LiftedAtom<'_>]) -> Result<(), Memory>
    ensures { OnOk result (is_fluent marks.new.items ≡ with_marks symbol_of (atoms_of atoms.now) (is_fluent marks.old.items)) }
{
    for atom in atoms {
        mark(marks, atom.symbol)?;
    }
    Ok(())
}

/// Marks the predicates that the effects of a schema name.
fn mark_effects(marks: &mut Vec<bool>, schema: &Schema<'_>) -> Result<(), Memory>
    ensures { OnOk result
        (is_fluent marks.new.items ≡ with_marks symbol_of (effects_of (schema_of schema.now)) (is_fluent marks.old.items)) }
{
    mark_all(marks, schema.start_adds)?;
    mark_all(marks, schema.start_dels)?;
    mark_all(marks, schema.end_adds)?;
    mark_all(marks, schema.end_dels)?;
    Ok(())
}

/// The marks of the predicates that effects of these schemas name.
fn marks_of(alloc: Global, schemas: &[Schema<'_>]) -> Result<Vec<bool>, Memory>
    ensures { IfOk result
        (λ r. is_fluent r.items ≡ with_effects (map schema_of schemas.now) (is_fluent [])) }
{
    let mut marks = Vec::new(alloc);
    for schema in schemas {
        mark_effects(&mut marks, schema)?;
    }
    Ok(marks)
}

/// Marks the predicates of these literals.
fn mark_literals(marks: &mut Vec<bool>, literals: &[TimedLiteral<'_>]) -> Result<(), Memory>
    ensures { OnOk result
        (is_fluent marks.new.items ≡ with_marks predicate_of (map literal_of literals.now) (is_fluent marks.old.items)) }
{
    for literal in literals {
        mark(marks, literal.predicate)?;
    }
    Ok(())
}

/// Marks the predicates that the literals of these events name.
fn mark_events(marks: &mut Vec<bool>, events: &[TimedFact<'_>]) -> Result<(), Memory>
    ensures { OnOk result
        (is_fluent marks.new.items ≡ with_events (timed_facts_of events.now) (is_fluent marks.old.items)) }
{
    for event in events {
        mark_literals(marks, event.literals)?;
    }
    Ok(())
}

/// Which predicates are fluent: those that some effect of the domain names, or some event of the problem.
pub(crate) fn fluents(alloc: Global, problem: &Problem<'_>) -> Result<Vec<bool>, Memory>
    ensures { IfOk result (λ r. is_fluent r.items ≡ is_written (problem_of problem.now)) }
{
    let mut marks = marks_of(alloc, problem.domain.schemas)?;
    mark_events(&mut marks, problem.timed)?;
    Ok(marks)
}
