//! Sets of footprints by the bits of numbers.

ghost use Rattle.std.specs.Prelude.{◌≡◌, ◌≤◌, ◌^◌, not, IfOk};
ghost use Rattle.std.specs.List.{list_all};
ghost use Rattle.stp_base.specs.declared.limits.TheConstants.{MAX_FOOTPRINTS};
ghost use Rattle.stp_cond.specs.Atoms.{has, have_common};
ghost use Rattle.stp_cond.specs.Views.{atoms_of};
ghost use Rattle.stp_expand.specs.Expanded.{picked, is_consistent};
ghost use Rattle.stp_expand.specs.Views.{footprints_of};

use crate::footprint::Footprint;
use std::alloc::Global;
use stp_base::{AtomId, Memory};

/// Those footprints whose bits are set in a number, the first one's bit being the lowest.
pub fn picked<'a>(
    alloc: Global,
    footprints: &[Footprint<'a>],
    number: usize,
) -> Result<Vec<Footprint<'a>>, Memory>
    ensures { IfOk result (λ r. r.items ≡ picked footprints.now number) }
{
    let mut set = Vec::new(alloc);
    let mut bits = number;
    for footprint in footprints {
        if bits % 2 == 1 {
            set.push(*footprint)?;
        }
        bits /= 2;
    }
    Ok(set)
}

/// How many sets of that many footprints there are.
pub fn sets_of(footprints: usize) -> usize
    requires { footprints ≤ MAX_FOOTPRINTS }
    ensures { result ≡ 2 ^ footprints }
{
    1 << footprints
}

/// Whether an atom is in a list.
fn is_in(atoms: &[AtomId], atom: AtomId) -> bool
    ensures { result ≡ has (atoms_of atoms.now) atom.0 }
{
    atoms.iter().any(|one| one.0 == atom.0)
}

/// Whether two lists have an atom in common.
fn share(one: &[AtomId], other: &[AtomId]) -> bool
    ensures { result ≡ have_common (atoms_of one.now) (atoms_of other.now) }
{
    one.iter().any(|atom| is_in(other, *atom))
}

/// Whether none of these footprints deletes one of some atoms.
fn are_spared(atoms: &[AtomId], set: &[Footprint<'_>]) -> bool
    ensures { result ≡ list_all (λ q. not (have_common (atoms_of atoms.now) q.dels)) (footprints_of set.now) }
{
    for footprint in set {
        if share(atoms, footprint.dels) {
            return false;
        }
    }
    true
}

/// Whether no atom is written both ways in a set.
pub fn is_consistent(set: &[Footprint<'_>]) -> bool
    ensures { result ≡ is_consistent (footprints_of set.now) }
{
    for footprint in set {
        if !are_spared(footprint.adds, set) {
            return false;
        }
    }
    true
}
