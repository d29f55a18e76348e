//! The formulas of an expansion.

ghost use Rattle.std.specs.Prelude.{◌≡◌, ◌++◌, map, IfOk};
ghost use Rattle.std.specs.List.{flat_map};
ghost use Rattle.stp_cond.specs.Formulas.{view, formulas_of, Conjunction, Disjunction};
ghost use Rattle.stp_cond.specs.Substituted.{substituted};
ghost use Rattle.stp_cond.specs.Views.{atoms_of};
ghost use Rattle.stp_expand.specs.Expanded.{not_opened, none_opened, shadow_under, set_formula};
ghost use Rattle.stp_expand.specs.Views.{footprints_of, shadow_in};

use crate::footprint::Footprint;
use bumpalo::Bump;
use std::alloc::Global;
use stp_base::{AtomId, Memory};
use stp_cond::{Cond, ascending, negate, substitute};

/// The conjunction of these formulas.
pub(crate) fn all_of<'a>(arena: &'a Bump, parts: &[Cond<'a>]) -> Result<Cond<'a>, Memory>
    ensures { IfOk result (λ r. view r ≡ Conjunction (formulas_of (map view parts.now))) }
{
    let slice = arena.try_alloc_slice_copy(parts)?;
    Ok(Cond::And(slice))
}

/// The disjunction of these formulas.
fn any_of<'a>(arena: &'a Bump, parts: &[Cond<'a>]) -> Result<Cond<'a>, Memory>
    ensures { IfOk result (λ r. view r ≡ Disjunction (formulas_of (map view parts.now))) }
{
    let slice = arena.try_alloc_slice_copy(parts)?;
    Ok(Cond::Or(slice))
}

/// That an action is not opened.
fn not_opened<'a>(arena: &'a Bump, atom: AtomId) -> Result<Cond<'a>, Memory>
    ensures { IfOk result (λ r. view r ≡ not_opened atom.0) }
{
    negate(arena, &Cond::Atom(atom))
}

/// Of each of these actions that it is not opened.
fn each_not_opened<'a>(
    alloc: Global,
    arena: &'a Bump,
    opened: &[AtomId],
) -> Result<Vec<Cond<'a>>, Memory>
    ensures { IfOk result (λ r. map view r.items ≡ map not_opened (atoms_of opened.now)) }
{
    let mut parts = Vec::with_capacity(alloc, opened.len())?;
    for atom in opened {
        parts.push(not_opened(arena, *atom)?)?;
    }
    Ok(parts)
}

/// That none of these actions is opened.
fn none_opened<'a>(alloc: Global, arena: &'a Bump, opened: &[AtomId]) -> Result<Cond<'a>, Memory>
    ensures { IfOk result (λ r. view r ≡ none_opened (atoms_of opened.now)) }
{
    match opened {
        [] => Ok(Cond::True),
        [only] => not_opened(arena, *only),
        several => {
            let parts = each_not_opened(alloc, arena, several)?;
            all_of(arena, parts.as_slice())
        }
    }
}

/// Of each footprint of a set that none of its actions is opened.
fn each_none_opened<'a>(
    alloc: Global,
    arena: &'a Bump,
    set: &[Footprint<'_>],
) -> Result<Vec<Cond<'a>>, Memory>
    ensures { IfOk result
        (λ r. map view r.items ≡ map (λ p. none_opened p.opened) (footprints_of set.now)) }
{
    let mut parts = Vec::new(alloc);
    for footprint in set {
        parts.push(none_opened(alloc, arena, footprint.opened)?)?;
    }
    Ok(parts)
}

/// The atoms that a set writes.
fn written(alloc: Global, set: &[Footprint<'_>]) -> Result<Vec<AtomId>, Memory>
    ensures { IfOk result
        (λ r. atoms_of r.items ≡ flat_map (λ p. p.adds ++ p.dels) (footprints_of set.now)) }
{
    let mut all = Vec::new(alloc);
    for footprint in set {
        all.extend_from_slice(footprint.adds)?;
        all.extend_from_slice(footprint.dels)?;
    }
    Ok(all)
}

/// The shadow of an atom; an atom without one stays.
fn shadow(atom: AtomId, shadow_of: &[Option<AtomId>]) -> AtomId
    ensures { result.0 ≡ shadow_in shadow_of.now atom.0 }
{
    match shadow_of.get(atom.0 as usize) {
        Some(Some(shadow)) => *shadow,
        Some(None) | None => atom,
    }
}

/// The shadows of these atoms.
fn shadows(
    alloc: Global,
    atoms: &[AtomId],
    shadow_of: &[Option<AtomId>],
) -> Result<Vec<AtomId>, Memory>
    ensures { IfOk result
        (λ r. atoms_of r.items ≡ map (shadow_in shadow_of.now) (atoms_of atoms.now)) }
{
    let mut found = Vec::with_capacity(alloc, atoms.len())?;
    for atom in atoms {
        found.push(shadow(*atom, shadow_of))?;
    }
    Ok(found)
}

/// A formula with the shadows of what a set writes.
fn with_shadows<'a>(
    alloc: Global,
    arena: &'a Bump,
    cond: &Cond<'a>,
    set: &[Footprint<'_>],
    shadow_of: &[Option<AtomId>],
) -> Result<Cond<'a>, Memory>
    ensures { IfOk result
        (λ r. view r ≡ substituted (shadow_under (shadow_in shadow_of.now) (footprints_of set.now)) (view cond.now)) }
{
    let all = written(alloc, set)?;
    let from = ascending(alloc, arena, all.as_slice())?;
    let to = shadows(alloc, from, shadow_of)?;
    let made = substitute(alloc, arena, cond, from, to.as_slice())?;
    Ok(made)
}

/// The formula of a set of footprints.
pub(crate) fn set_formula<'a>(
    alloc: Global,
    arena: &'a Bump,
    cond: &Cond<'a>,
    set: &[Footprint<'_>],
    shadow_of: &[Option<AtomId>],
) -> Result<Cond<'a>, Memory>
    ensures { IfOk result
        (λ r. view r ≡ set_formula (shadow_in shadow_of.now) (view cond.now) (footprints_of set.now)) }
{
    let mut parts = each_none_opened(alloc, arena, set)?;
    parts.push(with_shadows(alloc, arena, cond, set, shadow_of)?)?;
    let made = any_of(arena, parts.as_slice())?;
    Ok(made)
}
