//! Formulas with other atoms.

ghost use Rattle.std.specs.Prelude.{◌≡◌, length, map, IfOk};
ghost use Rattle.stp_cond.specs.Atoms.{set_of};
ghost use Rattle.stp_cond.specs.Views.{atoms_of};
ghost use Rattle.stp_cond.specs.Formulas.{view};
ghost use Rattle.stp_cond.specs.Substituted.{image_of, substituted};

use crate::cond::Cond;
use bumpalo::Bump;
use std::alloc::Global;
use stp_base::{AtomId, Memory};

/// What an atom becomes.
fn image(atom: AtomId, from: &[AtomId], to: &[AtomId]) -> AtomId
    requires same { length from.now ≡ length to.now }
    requires once { set_of (atoms_of from.now) ≡ atoms_of from.now }
    ensures { result.0 ≡ image_of (atoms_of from.now) (atoms_of to.now) atom.0 }
{
    match from.binary_search_by_key(&atom.0, |one| one.0) {
        Ok(place) => to[place],
        Err(_) => atom,
    }
}

/// Several formulas, each with the atoms of the one list replaced by those of the other.
#[cycle(substitute)]
fn substitute_all<'a>(
    alloc: Global,
    arena: &'a Bump,
    parts: &[Cond<'a>],
    from: &[AtomId],
    to: &[AtomId],
) -> Result<&'a [Cond<'a>], Memory>
    requires same { length from.now ≡ length to.now }
    requires once { set_of (atoms_of from.now) ≡ atoms_of from.now }
    ensures { IfOk result
        (λ r. map view r.now ≡ map (λ c. substituted (image_of (atoms_of from.now) (atoms_of to.now)) (view c)) parts.now) }
{
    let mut out = Vec::with_capacity(alloc, parts.len())?;
    for part in parts {
        out.push(substitute(alloc, arena, part, from, to)?)?;
    }
    let slice = arena.try_alloc_slice_copy(&out)?;
    Ok(slice)
}

/// A formula with each atom of the one list replaced by that at its place in the other, all at once. The
/// lists are of one length, and the first is ascending without repeats.
#[cycle(substitute)]
pub fn substitute<'a>(
    alloc: Global,
    arena: &'a Bump,
    cond: &Cond<'a>,
    from: &[AtomId],
    to: &[AtomId],
) -> Result<Cond<'a>, Memory>
    requires same { length from.now ≡ length to.now }
    requires once { set_of (atoms_of from.now) ≡ atoms_of from.now }
    ensures { IfOk result
        (λ r. view r ≡ substituted (image_of (atoms_of from.now) (atoms_of to.now)) (view cond.now)) }
{
    match cond {
        Cond::True => Ok(Cond::True),
        Cond::False => Ok(Cond::False),
        Cond::Atom(atom) => Ok(Cond::Atom(image(*atom, from, to))),
        Cond::Not(part) => {
            let replaced = substitute(alloc, arena, part, from, to)?;
            Ok(Cond::Not(arena.try_alloc(replaced)?))
        }
        Cond::And(parts) => Ok(Cond::And(substitute_all(alloc, arena, parts, from, to)?)),
        Cond::Or(parts) => Ok(Cond::Or(substitute_all(alloc, arena, parts, from, to)?)),
    }
}
