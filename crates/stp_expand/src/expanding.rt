//! The expansion of a condition.

ghost use Rattle.std.specs.Prelude.{◌≡◌, ◌≤◌, ◌++◌, ◌∷◌, [], false, true, if◌then◌else◌, map, length, Err, IfOk, OnOk};
ghost use Rattle.std.specs.List.{list_any};
ghost use Rattle.stp_base.specs.declared.limits.TheConstants.{MAX_FOOTPRINTS};
ghost use Rattle.stp_cond.specs.Formulas.{view, formulas_of, Conjunction};
ghost use Rattle.stp_expand.specs.declared.fault.ExpandFault.TheVariants.{TooManyFootprints};
ghost use Rattle.stp_expand.specs.Expanded.{expanded, expanded_whole, is_consistent, set_formula, under_footprints, used_sets};
ghost use Rattle.stp_expand.specs.Footprints.{has_too_many, is_past_limit};
ghost use Rattle.stp_expand.specs.Views.{footprints_of, shadow_in};

use crate::fault::ExpandFault;
use crate::footprint::Footprint;
use crate::formulas::{all_of, set_formula};
use crate::merging::footprints_on;
use crate::sets::{is_consistent, picked, sets_of};
use bumpalo::Bump;
use std::alloc::Global;
use stp_base::limits::MAX_FOOTPRINTS;
use stp_base::{AtomId, Memory};
use stp_cond::Cond;

/// Puts the formula of a set at the end, if no atom is written both ways in it.
fn add_set<'a>(
    alloc: Global,
    arena: &'a Bump,
    parts: &mut Vec<Cond<'a>>,
    cond: &Cond<'a>,
    set: &[Footprint<'_>],
    shadow_of: &[Option<AtomId>],
) -> Result<(), Memory>
    ensures { OnOk result
        (map view parts.new.items ≡ map view parts.old.items ++ (if is_consistent (footprints_of set.now) then set_formula (shadow_in shadow_of.now) (view cond.now) (footprints_of set.now) ∷ [] else [])) }
{
    if is_consistent(set) {
        let formula = set_formula(alloc, arena, cond, set, shadow_of)?;
        parts.push(formula)?;
    }
    Ok(())
}

/// A formula and that of each used set of its footprints.
fn with_sets<'a>(
    alloc: Global,
    arena: &'a Bump,
    cond: &Cond<'a>,
    footprints: &[Footprint<'a>],
    shadow_of: &[Option<AtomId>],
) -> Result<Cond<'a>, Memory>
    requires { length footprints.now ≤ MAX_FOOTPRINTS }
    ensures { IfOk result
        (λ r. view r ≡ Conjunction (formulas_of (view cond.now ∷ map (set_formula (shadow_in shadow_of.now) (view cond.now)) (used_sets (footprints_of footprints.now))))) }
{
    let mut parts = Vec::new(alloc);
    parts.push(*cond)?;
    for number in 1..sets_of(footprints.len()) {
        let set = picked(alloc, footprints, number)?;
        add_set(alloc, arena, &mut parts, cond, set.as_slice(), shadow_of)?;
    }
    let made = all_of(arena, parts.as_slice())?;
    Ok(made)
}

/// A formula under its footprints.
fn under_footprints<'a>(
    alloc: Global,
    arena: &'a Bump,
    cond: &Cond<'a>,
    footprints: &[Footprint<'a>],
    shadow_of: &[Option<AtomId>],
) -> Result<Cond<'a>, Memory>
    requires { length footprints.now ≤ MAX_FOOTPRINTS }
    ensures { IfOk result
        (λ r. view r ≡ under_footprints (shadow_in shadow_of.now) (view cond.now) (footprints_of footprints.now)) }
{
    match footprints {
        [] => Ok(*cond),
        several => with_sets(alloc, arena, cond, several, shadow_of),
    }
}

/// A formula that is expanded as a whole. Its footprints are counted before anything is made.
fn expand_whole<'a>(
    alloc: Global,
    arena: &'a Bump,
    cond: &Cond<'a>,
    ends: &[Footprint<'a>],
    shadow_of: &[Option<AtomId>],
) -> Result<Cond<'a>, ExpandFault>
    ensures ok { IfOk result
        (λ r. view r ≡ expanded_whole (shadow_in shadow_of.now) (footprints_of ends.now) (view cond.now)) }
    ensures few { OnOk result (is_past_limit (footprints_of ends.now) (view cond.now) ≡ false) }
    ensures many { result ≡ Err TooManyFootprints → is_past_limit (footprints_of ends.now) (view cond.now) ≡ true }
{
    let footprints = footprints_on(alloc, arena, cond, ends)?;
    if footprints.len() > MAX_FOOTPRINTS {
        return Err(ExpandFault::TooManyFootprints);
    }
    let made = under_footprints(alloc, arena, cond, footprints.as_slice(), shadow_of)?;
    Ok(made)
}

/// Several formulas, each expanded.
#[cycle(expand)]
fn expand_all<'a>(
    alloc: Global,
    arena: &'a Bump,
    parts: &[Cond<'a>],
    ends: &[Footprint<'a>],
    shadow_of: &[Option<AtomId>],
) -> Result<Vec<Cond<'a>>, ExpandFault>
    ensures ok { IfOk result
        (λ r. map view r.items ≡ map (λ c. expanded (shadow_in shadow_of.now) (footprints_of ends.now) (view c)) parts.now) }
    ensures few { OnOk result (list_any (λ c. has_too_many (footprints_of ends.now) (view c)) parts.now ≡ false) }
    ensures many { result ≡ Err TooManyFootprints → list_any (λ c. has_too_many (footprints_of ends.now) (view c)) parts.now ≡ true }
{
    let mut members = Vec::new(alloc);
    for part in parts {
        members.push(expand(alloc, arena, part, ends, shadow_of)?)?;
    }
    Ok(members)
}

/// What has to hold of a condition at one moment so that it holds whichever of the opened ends have come.
///
/// The ends are those of all uncertain actions but the one whose condition it is, in the order of the actions. The row
/// of shadows goes by the numbers of atoms, and an atom without a shadow stays. A conjunction is expanded member by
/// member, and a formula that is none may have ten footprints at most. Parts that do not change are shared.
#[cycle(expand)]
pub fn expand<'a>(
    alloc: Global,
    arena: &'a Bump,
    cond: &Cond<'a>,
    ends: &[Footprint<'a>],
    shadow_of: &[Option<AtomId>],
) -> Result<Cond<'a>, ExpandFault>
    ensures ok { IfOk result
        (λ r. view r ≡ expanded (shadow_in shadow_of.now) (footprints_of ends.now) (view cond.now)) }
    ensures few { OnOk result (has_too_many (footprints_of ends.now) (view cond.now) ≡ false) }
    ensures many { result ≡ Err TooManyFootprints → has_too_many (footprints_of ends.now) (view cond.now) ≡ true }
{
    match cond {
        Cond::And(parts) => {
            let members = expand_all(alloc, arena, parts, ends, shadow_of)?;
            let made = all_of(arena, members.as_slice())?;
            Ok(made)
        }
        Cond::True | Cond::False | Cond::Atom(_) | Cond::Not(_) | Cond::Or(_) => {
            expand_whole(alloc, arena, cond, ends, shadow_of)
        }
    }
}
