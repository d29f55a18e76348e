//! What effects add and delete under a binding.

ghost use Rattle.std.specs.Prelude.{◌≡◌, map, IfOk, OnOk};
ghost use Rattle.stp_schema.specs.Formula.{atoms_of as plain_atoms_of};
ghost use Rattle.stp_instance.specs.Bindings.{numbers_of};
ghost use Rattle.stp_cond.specs.Views.{atoms_of};
ghost use Rattle.stp_instance.specs.Numbered.{IsGrown, numbers_in, with_atoms};
ghost use Rattle.stp_instance.specs.Effects.{added, deleted, ground_atoms, written_atoms};

use crate::objects_under;
use bumpalo::Bump;
use bumpalo::collections::into_bump_slice;
use std::alloc::Global;
use stp_base::{AtomId, Memory, ObjectId};
use stp_cond::{ascending, without};
use stp_schema::LiftedAtom;
use stp_tables::AtomTable;

/// An atom that an effect writes.
#[derive(Clone, Copy)]
pub struct Written<'a> {
    pub predicate: u32,
    pub args: &'a [ObjectId],
}

/// These atoms under a binding of their variables.
pub fn written_under<'a>(
    arena: &'a Bump,
    binding: &[ObjectId],
    atoms: &[LiftedAtom<'_>],
) -> Result<&'a [Written<'a>], Memory>
    ensures { IfOk result
        (λ r. written_atoms r.now ≡ ground_atoms (numbers_of binding.now) (plain_atoms_of atoms.now)) }
{
    let mut out = Vec::with_capacity(arena, atoms.len())?;
    for atom in atoms {
        let args = objects_under(arena, binding, atom.terms)?;
        out.push(Written {
            predicate: atom.symbol,
            args,
        })?;
    }
    Ok(into_bump_slice(out))
}

/// Numbers these atoms in their order.
pub fn number_written(table: &mut AtomTable, written: &[Written<'_>]) -> Result<(), Memory>
    ensures atoms { OnOk result (table.new ≡ with_atoms table.old (written_atoms written.now)) }
    ensures grown { IsGrown table.old table.new }
{
    for atom in written {
        table.number(atom.predicate, atom.args)?;
    }
    Ok(())
}

/// The numbers of those of these atoms that have one, in their order.
fn numbers(alloc: Global, table: &AtomTable, written: &[Written<'_>]) -> Result<Vec<AtomId>, Memory>
    ensures { IfOk result (λ r. atoms_of r.items ≡ numbers_in table.now (written_atoms written.now)) }
{
    let mut out = Vec::with_capacity(alloc, written.len())?;
    for atom in written {
        if let Some(number) = table.find(atom.predicate, atom.args) {
            out.push(number)?;
        }
    }
    Ok(out)
}

/// The numbered atoms that an effect adds, and those that it deletes: an atom that is both is added. Both lists are
/// ascending.
pub fn written_numbers<'a>(
    alloc: Global,
    arena: &'a Bump,
    table: &AtomTable,
    adds: &[Written<'_>],
    dels: &[Written<'_>],
) -> Result<(&'a [AtomId], &'a [AtomId]), Memory>
    ensures adds { IfOk result (λ r. atoms_of r.0.now ≡ added table.now (written_atoms adds.now)) }
    ensures dels { IfOk result
        (λ r. atoms_of r.1.now ≡ deleted table.now (written_atoms adds.now) (written_atoms dels.now)) }
{
    let adds = numbers(alloc, table, adds)?;
    let added = ascending(alloc, arena, &adds)?;
    let dels = numbers(alloc, table, dels)?;
    let all_deleted = ascending(alloc, arena, &dels)?;
    let deleted = without(arena, all_deleted, added)?;
    Ok((added, deleted))
}
