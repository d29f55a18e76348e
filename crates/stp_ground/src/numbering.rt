//! The numbers of the fluent atoms of what is chosen.

ghost use Rattle.std.specs.Prelude.{◌≡◌, OnOk};
ghost use Rattle.stp_instance.specs.Numbered.{is_fluent, IsGrown, with_atoms};
ghost use Rattle.stp_ground.specs.Ground.{atoms_in_order, atoms_of_chosen};
ghost use Rattle.stp_ground.specs.Views.{chosen_view};
ghost use Rattle.stp_ground.specs.Worlds.{problem_in};

use crate::chosen::Chosen;
use crate::world::World;
use stp_base::Memory;
use stp_instance::{number_atoms, number_written};
use stp_tables::AtomTable;

/// Numbers the fluent atoms of what is chosen, where it is known which predicates are fluent.
fn number_in_order(
    table: &mut AtomTable,
    fluent: &[bool],
    chosen: &Chosen<'_>,
) -> Result<(), Memory>
    ensures atoms { OnOk result
        (table.new ≡ with_atoms table.old (atoms_in_order (is_fluent fluent.now) (chosen_view chosen.now))) }
    ensures grown { IsGrown table.old table.new }
{
    number_atoms(table, fluent, &chosen.start_cond)?;
    number_atoms(table, fluent, &chosen.over_all)?;
    number_atoms(table, fluent, &chosen.end_cond)?;
    number_written(table, chosen.start_adds)?;
    number_written(table, chosen.start_dels)?;
    number_written(table, chosen.end_adds)?;
    number_written(table, chosen.end_dels)?;
    Ok(())
}

/// Numbers the fluent atoms of what is chosen: those of its start condition, its condition over all, its end condition,
/// and then those that are added and deleted at its start and at its end.
pub fn number_chosen(
    world: &World<'_>,
    table: &mut AtomTable,
    chosen: &Chosen<'_>,
) -> Result<(), Memory>
    ensures atoms { OnOk result
        (table.new ≡ with_atoms table.old (atoms_of_chosen (problem_in world.now) (chosen_view chosen.now))) }
    ensures grown { IsGrown table.old table.new }
{
    number_in_order(table, &world.fluent, chosen)?;
    Ok(())
}
