//! The footprints of ends on a formula, the same ones as one.

ghost use Rattle.std.specs.Prelude.{◌≡◌, [], ◌++◌, map, IfOk, OnOk};
ghost use Rattle.std.specs.List.{fold, position};
ghost use Rattle.stp_cond.specs.Atoms.{set_of};
ghost use Rattle.stp_cond.specs.Formulas.{view};
ghost use Rattle.stp_cond.specs.Views.{atoms_of};
ghost use Rattle.stp_expand.specs.Footprints.{is_same, part_of, with_footprint, with_part, footprints_on};
ghost use Rattle.stp_expand.specs.Views.{footprint_of, footprints_of};

use crate::footprint::{Footprint, is_same, part_of, writes_nothing};
use bumpalo::Bump;
use bumpalo::collections::into_bump_slice;
use std::alloc::Global;
use stp_base::{AtomId, Memory};
use stp_cond::{Cond, atoms};

/// The place of the first footprint that writes the same.
fn place_of(found: &[Footprint<'_>], one: &Footprint<'_>) -> Option<usize>
    ensures { result ≡ position (λ q. is_same (footprint_of one.now) (footprint_of q)) found.now }
{
    found.iter().position(|other| is_same(one, other))
}

/// The atoms of the one list and then those of the other.
fn joined<'a>(arena: &'a Bump, first: &[AtomId], second: &[AtomId]) -> Result<&'a [AtomId], Memory>
    ensures { IfOk result (λ r. r.now ≡ first.now ++ second.now) }
{
    let mut both = Vec::with_capacity(arena, first.len())?;
    both.extend_from_slice(first)?;
    both.extend_from_slice(second)?;
    Ok(into_bump_slice(both))
}

/// Puts a footprint to those that are found: to the same one, or at the end.
fn add_footprint<'a>(
    arena: &'a Bump,
    found: &mut Vec<Footprint<'a>>,
    one: &Footprint<'a>,
) -> Result<(), Memory>
    ensures { OnOk result
        (footprints_of found.new.items ≡ with_footprint (footprint_of one.now) (footprints_of found.old.items)) }
{
    let Some(place) = place_of(found.as_slice(), one) else {
        found.push(*one)?;
        return Ok(());
    };
    let same = found[place];
    let opened = joined(arena, same.opened, one.opened)?;
    found[place] = Footprint { opened, ..same };
    Ok(())
}

/// Puts what a footprint writes of some atoms, which ascend, to what is found, unless it writes none of them.
fn add_part<'a>(
    arena: &'a Bump,
    found: &mut Vec<Footprint<'a>>,
    whole: &Footprint<'a>,
    atoms: &[AtomId],
) -> Result<(), Memory>
    requires { set_of (atoms_of atoms.now) ≡ atoms_of atoms.now }
    ensures { OnOk result
        (footprints_of found.new.items ≡ with_part (footprints_of found.old.items) (part_of (atoms_of atoms.now) (footprint_of whole.now))) }
{
    let part = part_of(arena, whole, atoms)?;
    if writes_nothing(&part) {
        return Ok(());
    }
    add_footprint(arena, found, &part)?;
    Ok(())
}

/// What ends write of some atoms, which ascend, the same as one.
fn merged<'a>(
    alloc: Global,
    arena: &'a Bump,
    ends: &[Footprint<'a>],
    atoms: &[AtomId],
) -> Result<Vec<Footprint<'a>>, Memory>
    requires { set_of (atoms_of atoms.now) ≡ atoms_of atoms.now }
    ensures { IfOk result
        (λ r. footprints_of r.items ≡ fold with_part [] (map (part_of (atoms_of atoms.now)) (footprints_of ends.now))) }
{
    let mut found = Vec::new(alloc);
    for end in ends {
        add_part(arena, &mut found, end, atoms)?;
    }
    Ok(found)
}

/// The footprints of ends on a formula.
pub fn footprints_on<'a>(
    alloc: Global,
    arena: &'a Bump,
    cond: &Cond<'_>,
    ends: &[Footprint<'a>],
) -> Result<Vec<Footprint<'a>>, Memory>
    ensures { IfOk result
        (λ r. footprints_of r.items ≡ footprints_on (view cond.now) (footprints_of ends.now)) }
{
    let read = atoms(alloc, cond)?;
    let found = merged(alloc, arena, ends, read.as_slice())?;
    Ok(found)
}
