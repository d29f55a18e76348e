//! Footprints: what the ends of uncertain actions write.

ghost use Rattle.std.specs.Prelude.{◌≡◌, filter, IfOk};
ghost use Rattle.stp_cond.specs.Atoms.{has, set_of};
ghost use Rattle.stp_cond.specs.Views.{atoms_of};
ghost use Rattle.stp_expand.specs.Footprints.{is_same, part_of, writes_nothing};
ghost use Rattle.stp_expand.specs.Views.{footprint_of};

use bumpalo::Bump;
use bumpalo::collections::into_bump_slice;
use stp_base::{AtomId, Memory};
use stp_cond::is_among;

/// What the ends of some actions write, and the atoms that say that these actions are opened.
#[derive(Clone, Copy)]
pub struct Footprint<'a> {
    pub adds: &'a [AtomId],
    pub dels: &'a [AtomId],
    pub opened: &'a [AtomId],
}

/// Those atoms of the one list that are in the other, which is ascending.
fn those_among<'a>(
    arena: &'a Bump,
    atoms: &[AtomId],
    other: &[AtomId],
) -> Result<&'a [AtomId], Memory>
    requires { set_of (atoms_of other.now) ≡ atoms_of other.now }
    ensures { IfOk result
        (λ r. atoms_of r.now ≡ filter (has (atoms_of other.now)) (atoms_of atoms.now)) }
{
    let mut found = Vec::with_capacity(arena, atoms.len())?;
    for atom in atoms {
        if is_among(other, *atom) {
            found.push(*atom)?;
        }
    }
    Ok(into_bump_slice(found))
}

/// What a footprint writes of some atoms, which ascend.
pub(crate) fn part_of<'a>(
    arena: &'a Bump,
    whole: &Footprint<'a>,
    atoms: &[AtomId],
) -> Result<Footprint<'a>, Memory>
    requires { set_of (atoms_of atoms.now) ≡ atoms_of atoms.now }
    ensures { IfOk result
        (λ r. footprint_of r ≡ part_of (atoms_of atoms.now) (footprint_of whole.now)) }
{
    let adds = those_among(arena, whole.adds, atoms)?;
    let dels = those_among(arena, whole.dels, atoms)?;
    Ok(Footprint {
        adds,
        dels,
        opened: whole.opened,
    })
}

/// Whether a footprint writes no atom.
pub(crate) fn writes_nothing(one: &Footprint<'_>) -> bool
    ensures { result ≡ writes_nothing (footprint_of one.now) }
{
    one.adds.is_empty() && one.dels.is_empty()
}

/// Whether two footprints write the same.
pub(crate) fn is_same(one: &Footprint<'_>, other: &Footprint<'_>) -> bool
    ensures { result ≡ is_same (footprint_of one.now) (footprint_of other.now) }
{
    one.adds == other.adds && one.dels == other.dels
}
