//! What is true at first, and the goal.

ghost use Rattle.std.specs.Prelude.{◌≡◌, true, length, map, IfOk, OnOk};
ghost use Rattle.stp_schema.specs.Views.{fact_of};
ghost use Rattle.stp_cond.specs.Formulas.{view};
ghost use Rattle.stp_cond.specs.Truth.{is_below};
ghost use Rattle.stp_instance.specs.Numbered.{is_fluent, IsGrown, with_atoms};
ghost use Rattle.stp_instance.specs.Views.{claim};
ghost use Rattle.stp_ground.specs.Problems.{fluent_fact, fluent_facts, goal_atoms, goal_of, initial_atoms};
ghost use Rattle.stp_ground.specs.Ground.{left_of};
ghost use Rattle.stp_ground.specs.Worlds.{problem_in};

use crate::choosing::expanded;
use crate::grounding::left_of;
use crate::world::World;
use bumpalo::Bump;
use std::alloc::Global;
use stp_base::Memory;
use stp_cond::Cond;
use stp_instance::{Ground, is_fluent, number_atoms};
use stp_schema::Fact;
use stp_tables::AtomTable;

/// Numbers a fact where it is fluent.
fn number_fact(table: &mut AtomTable, fluent: &[bool], fact: &Fact<'_>) -> Result<(), Memory>
    ensures atoms { OnOk result (table.new ≡ with_atoms table.old (fluent_fact (is_fluent fluent.now) (fact_of fact.now))) }
    ensures grown { IsGrown table.old table.new }
{
    if is_fluent(fluent, fact.predicate) {
        table.number(fact.predicate, fact.args)?;
    }
    Ok(())
}

/// Numbers the fluent ones of these facts, in their order.
fn number_facts(table: &mut AtomTable, fluent: &[bool], given: &[Fact<'_>]) -> Result<(), Memory>
    ensures atoms { OnOk result
        (table.new ≡ with_atoms table.old (fluent_facts (is_fluent fluent.now) (map fact_of given.now))) }
    ensures grown { IsGrown table.old table.new }
{
    for fact in given {
        number_fact(table, fluent, fact)?;
    }
    Ok(())
}

/// Numbers the fluent atoms that are true at first.
pub fn number_initial(world: &World<'_>, table: &mut AtomTable) -> Result<(), Memory>
    ensures atoms { OnOk result (table.new ≡ with_atoms table.old (initial_atoms (problem_in world.now))) }
    ensures grown { IsGrown table.old table.new }
{
    number_facts(table, &world.fluent, world.problem.initial)?;
    Ok(())
}

/// The goal over ground atoms.
fn goal_of<'a>(alloc: Global, arena: &'a Bump, world: &mut World<'a>) -> Result<Ground<'a>, Memory>
    ensures goal { IfOk result (λ r. claim r ≡ goal_of (problem_in world.old)) }
    ensures same { problem_in world.new ≡ problem_in world.old }
{
    let goal = expanded(alloc, arena, &mut world.members, &[], world.problem.goal)?;
    Ok(goal)
}

/// Numbers the fluent atoms of the goal.
pub fn number_goal<'a>(
    alloc: Global,
    arena: &'a Bump,
    world: &mut World<'a>,
    table: &mut AtomTable,
) -> Result<(), Memory>
    ensures atoms { OnOk result (table.new ≡ with_atoms table.old (goal_atoms (problem_in world.old))) }
    ensures grown { IsGrown table.old table.new }
    ensures same { problem_in world.new ≡ problem_in world.old }
{
    let goal = goal_of(alloc, arena, world)?;
    number_atoms(table, &world.fluent, &goal)?;
    Ok(())
}

/// What is left of the goal once what is static is known.
pub fn goal_in<'a>(
    alloc: Global,
    arena: &'a Bump,
    world: &mut World<'a>,
    table: &AtomTable,
) -> Result<Cond<'a>, Memory>
    ensures left { IfOk result
        (λ r. view r ≡ left_of (problem_in world.old) table.now (goal_of (problem_in world.old))) }
    ensures in_range { IfOk result (λ r. is_below (length table.now) r ≡ true) }
    ensures same { problem_in world.new ≡ problem_in world.old }
{
    let goal = goal_of(alloc, arena, world)?;
    let left = left_of(alloc, arena, world, table, &goal)?;
    Ok(left)
}
