//! Sets of atoms as ascending lists.

ghost use Rattle.std.specs.Prelude.{◌≡◌, IfOk};
ghost use Rattle.stp_cond.specs.Atoms.{has, have_common, set_of, without};
ghost use Rattle.stp_cond.specs.Views.{atoms_of};

use bumpalo::Bump;
use bumpalo::collections::into_bump_slice;
use std::alloc::Global;
use stp_base::{AtomId, Memory};

/// The numbers of these atoms.
fn numbers_of(alloc: Global, atoms: &[AtomId]) -> Result<Vec<u32>, Memory>
    ensures { IfOk result (λ v. v.items ≡ atoms_of atoms.now) }
{
    Ok(atoms.iter().map(|atom| atom.0).collect(alloc)?)
}

/// The atoms of these numbers.
fn atoms_from<'a>(arena: &'a Bump, numbers: &[u32]) -> Result<&'a [AtomId], Memory>
    ensures { IfOk result (λ r. atoms_of r.now ≡ numbers.now) }
{
    let mut atoms = Vec::with_capacity(arena, numbers.len())?;
    for number in numbers {
        atoms.push(AtomId(*number))?;
    }
    Ok(into_bump_slice(atoms))
}

/// These atoms, ascending, each once.
pub fn ascending<'a>(
    alloc: Global,
    arena: &'a Bump,
    atoms: &[AtomId],
) -> Result<&'a [AtomId], Memory>
    ensures { IfOk result (λ r. atoms_of r.now ≡ set_of (atoms_of atoms.now)) }
{
    let mut numbers = numbers_of(alloc, atoms)?;
    numbers.sort()?;
    numbers.dedup();
    let found = atoms_from(arena, &numbers)?;
    Ok(found)
}

/// Whether an atom is among ascending ones.
pub fn is_among(atoms: &[AtomId], atom: AtomId) -> bool
    requires { set_of (atoms_of atoms.now) ≡ atoms_of atoms.now }
    ensures { result ≡ has (atoms_of atoms.now) atom.0 }
{
    atoms.binary_search_by_key(&atom.0, |a| a.0).is_ok()
}

/// Whether the one list and the other, which is ascending, have an atom in common.
pub fn have_common(one: &[AtomId], other: &[AtomId]) -> bool
    requires { set_of (atoms_of other.now) ≡ atoms_of other.now }
    ensures { result ≡ have_common (atoms_of one.now) (atoms_of other.now) }
{
    one.iter().any(|atom| is_among(other, *atom))
}

/// Those atoms of the one list that are not in the other, which is ascending.
pub fn without<'a>(
    arena: &'a Bump,
    atoms: &[AtomId],
    other: &[AtomId],
) -> Result<&'a [AtomId], Memory>
    requires { set_of (atoms_of other.now) ≡ atoms_of other.now }
    ensures { IfOk result
        (λ r. atoms_of r.now ≡ without (atoms_of atoms.now) (atoms_of other.now)) }
{
    let mut left = Vec::with_capacity(arena, atoms.len())?;
    for atom in atoms {
        if !is_among(other, *atom) {
            left.push(*atom)?;
        }
    }
    Ok(into_bump_slice(left))
}
