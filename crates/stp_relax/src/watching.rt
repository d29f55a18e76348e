//! Which actions read each atom.

ghost use Rattle.std.specs.Prelude.{◌≡◌, ◌<◌, ◌++◌, ◌∷◌, [], All, length, slice_index_or, slice_set, IfOk, OnOk};
ghost use Rattle.stp_cond.specs.Views.{atoms_of};
ghost use Rattle.stp_task.specs.Actions.{action_of};
ghost use Rattle.stp_task.specs.SoundTask.{IsActionInRange};
ghost use Rattle.stp_relax.specs.Watched.{AreWatched, IsPut, IsWatched};

use std::alloc::Global;
use stp_base::{AtomId, List, Memory};
use stp_cond::atoms;
use stp_task::{GroundAction, Task};

/// Puts a reader at an atom.
fn put(readers: &mut Vec<List<usize>>, atom: AtomId, reader: usize) -> Result<(), Memory>
    requires { atom.0 < length readers.old.items }
    ensures { OnOk result (readers.new.items ≡ slice_set readers.old.items atom.0 (slice_index_or readers.old.items atom.0 [] ++ reader ∷ [])) }
{
    readers[atom.0 as usize].push(reader)
}

/// Puts a reader at these atoms.
fn put_all(readers: &mut Vec<List<usize>>, atoms: &[AtomId], reader: usize) -> Result<(), Memory>
    requires { All (λ a. a.0 < length readers.old.items) atoms.now }
    ensures { OnOk result (IsPut (atoms_of atoms.now) reader readers.old.items readers.new.items) }
{
    for atom in atoms {
        put(readers, *atom, reader)?;
    }
    Ok(())
}

/// Puts an action at the atoms that it reads.
fn watch(
    alloc: Global,
    readers: &mut Vec<List<usize>>,
    action: &GroundAction<'_>,
    number: usize,
) -> Result<(), Memory>
    requires { IsActionInRange (length readers.old.items) action.now }
    ensures { OnOk result (IsWatched (action_of action.now) number readers.old.items readers.new.items) }
{
    put_all(readers, action.start.reads, number)?;
    let Some(finish) = action.finish else {
        return Ok(());
    };
    put_all(readers, finish.reads, number)?;
    let inside = atoms(alloc, action.over)?;
    put_all(readers, inside.as_slice(), number)?;
    Ok(())
}

/// For each atom the places of the actions that read it.
pub(crate) fn readers(alloc: Global, task: &Task<'_>) -> Result<Vec<List<usize>>, Memory>
    ensures { IfOk result (λ r. AreWatched task.now.actions r.items) }
{
    let mut readers = Vec::new(alloc);
    for _ in 0..task.initial.len() {
        readers.push(List::new(alloc))?;
    }
    for (number, action) in task.actions.as_slice().iter().enumerate() {
        watch(alloc, &mut readers, action, number)?;
    }
    Ok(readers)
}
