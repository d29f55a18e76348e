//! The shadows of atoms.

ghost use Rattle.std.specs.Prelude.{◌≡◌, ◌++◌, option_map, OnOk, IfOk};
ghost use Rattle.stp_cond.specs.Views.{atoms_of};
ghost use Rattle.stp_rewrite.specs.Ends.{shadow_by, shadows_by};

use std::alloc::Global;
use stp_base::{AtomId, Memory};

/// The shadow of an atom, if it has one.
fn shadow(atom: AtomId, shadow_of: &[Option<AtomId>]) -> Option<AtomId>
    ensures { option_map (λ a. a.0) result ≡ shadow_by shadow_of.now atom.0 }
{
    match shadow_of.get(atom.0 as usize) {
        Some(Some(shadow)) => Some(*shadow),
        Some(None) | None => None,
    }
}

/// Puts the shadows of these atoms at the end, of those that have one.
fn add_shadows(
    found: &mut Vec<AtomId>,
    atoms: &[AtomId],
    shadow_of: &[Option<AtomId>],
) -> Result<(), Memory>
    ensures { OnOk result
        (atoms_of found.new.items ≡ atoms_of found.old.items ++ shadows_by shadow_of.now (atoms_of atoms.now)) }
{
    for atom in atoms {
        if let Some(shadow) = shadow(*atom, shadow_of) {
            found.push(shadow)?;
        }
    }
    Ok(())
}

/// The shadows of these atoms, of those that have one.
pub(crate) fn shadows(
    alloc: Global,
    atoms: &[AtomId],
    shadow_of: &[Option<AtomId>],
) -> Result<Vec<AtomId>, Memory>
    ensures { IfOk result (λ r. atoms_of r.items ≡ shadows_by shadow_of.now (atoms_of atoms.now)) }
{
    let mut found = Vec::new(alloc);
    add_shadows(&mut found, atoms, shadow_of)?;
    Ok(found)
}

/// These atoms and then their shadows.
pub(crate) fn with_shadows(
    alloc: Global,
    atoms: &[AtomId],
    shadow_of: &[Option<AtomId>],
) -> Result<Vec<AtomId>, Memory>
    ensures { IfOk result
        (λ r. atoms_of r.items ≡ atoms_of atoms.now ++ shadows_by shadow_of.now (atoms_of atoms.now)) }
{
    let mut found = Vec::new(alloc);
    found.extend_from_slice(atoms)?;
    add_shadows(&mut found, atoms, shadow_of)?;
    Ok(found)
}
