//! The numbers of the fluent atoms of a condition.

ghost use Rattle.std.specs.Prelude.{◌≡◌, ◌++◌, IfOk, OnOk};
ghost use Rattle.stp_cond.specs.Atoms.{set_of};
ghost use Rattle.stp_cond.specs.Views.{atoms_of};
ghost use Rattle.stp_instance.specs.Numbered.{fluent_atoms, is_fluent, IsGrown, numbers_in, with_atoms};
ghost use Rattle.stp_instance.specs.Views.{claim};

use crate::ground::Ground;
use bumpalo::Bump;
use std::alloc::Global;
use stp_base::{AtomId, Memory};
use stp_cond::ascending;
use stp_tables::AtomTable;

/// Whether a predicate is fluent. One that has no mark is not.
pub fn is_fluent(fluent: &[bool], predicate: u32) -> bool
    ensures { result ≡ is_fluent fluent.now predicate }
{
    match fluent.get(predicate as usize) {
        Some(mark) => *mark,
        None => false,
    }
}

/// Numbers the fluent atoms of a condition from left to right.
pub fn number_atoms(
    table: &mut AtomTable,
    fluent: &[bool],
    ground: &Ground<'_>,
) -> Result<(), Memory>
    ensures atoms { OnOk result
        (table.new ≡ with_atoms table.old (fluent_atoms (is_fluent fluent.now) (claim ground.now))) }
    ensures grown { IsGrown table.old table.new }
{
    match ground {
        Ground::Fact(predicate, args) => {
            if is_fluent(fluent, *predicate) {
                table.number(*predicate, args)?;
            }
        }
        Ground::Same(..) => {}
        Ground::Opposite(inner) => number_atoms(table, fluent, inner)?,
        Ground::Every(members) | Ground::Any(members) => {
            for member in *members {
                number_atoms(table, fluent, member)?;
            }
        }
    }
    Ok(())
}

/// Puts the numbers of the fluent atoms of a condition at the end, from left to right.
fn gather(
    table: &AtomTable,
    fluent: &[bool],
    ground: &Ground<'_>,
    reads: &mut Vec<AtomId>,
) -> Result<(), Memory>
    ensures { OnOk result
        (atoms_of reads.new.items
        ≡ atoms_of reads.old.items ++ numbers_in table.now (fluent_atoms (is_fluent fluent.now) (claim ground.now))) }
{
    match ground {
        Ground::Fact(predicate, args) => {
            if is_fluent(fluent, *predicate) {
                if let Some(atom) = table.find(*predicate, args) {
                    reads.push(atom)?;
                }
            }
        }
        Ground::Same(..) => {}
        Ground::Opposite(inner) => gather(table, fluent, inner, reads)?,
        Ground::Every(members) | Ground::Any(members) => {
            for member in *members {
                gather(table, fluent, member, reads)?;
            }
        }
    }
    Ok(())
}

/// The fluent atoms of a condition, ascending: also those that folding drops.
pub fn reads_of<'a>(
    alloc: Global,
    arena: &'a Bump,
    table: &AtomTable,
    fluent: &[bool],
    ground: &Ground<'_>,
) -> Result<&'a [AtomId], Memory>
    ensures { IfOk result
        (λ r. atoms_of r.now ≡ set_of (numbers_in table.now (fluent_atoms (is_fluent fluent.now) (claim ground.now)))) }
{
    let mut reads = Vec::new(alloc);
    gather(table, fluent, ground, &mut reads)?;
    let reads = ascending(alloc, arena, &reads)?;
    Ok(reads)
}
