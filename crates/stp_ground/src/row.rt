//! The first state.

ghost use Rattle.std.specs.Prelude.{◌≡◌, map, IfOk};
ghost use Rattle.stp_instance.specs.Numbered.{is_in};
ghost use Rattle.stp_ground.specs.Problems.{is_fact};
ghost use Rattle.stp_ground.specs.Worlds.{problem_in};

use crate::world::World;
use std::alloc::Global;
use stp_base::{AtomId, Memory, StateRow};
use stp_tables::AtomTable;

/// The row of a table's atoms in which those are true that are among the facts.
fn row_of(alloc: Global, facts: &AtomTable, table: &AtomTable) -> Result<StateRow, Memory>
    ensures { IfOk result (λ r. r ≡ map (is_in facts.now) table.now) }
{
    let count = table.len();
    let mut row = StateRow::new(alloc, count)?;
    for number in 0..count {
        let (predicate, args) = table.get(AtomId(number));
        row.set(AtomId(number), facts.find(predicate, args).is_some());
    }
    Ok(row)
}

/// The row in which exactly those of the table's atoms are true that are true at first.
pub fn initial_row(alloc: Global, world: &World<'_>, table: &AtomTable) -> Result<StateRow, Memory>
    ensures { IfOk result (λ r. r ≡ map (is_fact (problem_in world.now)) table.now) }
{
    let row = row_of(alloc, &world.facts, table)?;
    Ok(row)
}
