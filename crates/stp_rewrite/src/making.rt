//! Events from their parts.

ghost use Rattle.std.specs.Prelude.{◌≡◌, ◌++◌, ◌∷◌, [], true, false, map, IfOk, OnOk};
ghost use Rattle.stp_cond.specs.Atoms.{has, have_common, set_of};
ghost use Rattle.stp_cond.specs.Formulas.{view, formulas_of, Conjunction};
ghost use Rattle.stp_cond.specs.Truth.{reads_only};
ghost use Rattle.stp_cond.specs.Views.{atoms_of};
ghost use Rattle.stp_expand.specs.Expanded.{not_opened};
ghost use Rattle.stp_task.specs.Actions.{happening_of};
ghost use Rattle.stp_rewrite.specs.Happenings.{guarded, made_of};

use bumpalo::Bump;
use std::alloc::Global;
use stp_base::{AtomId, Memory};
use stp_cond::{Cond, Event, ascending, negate};

/// A formula, and that none of these actions is opened.
fn guarded_by<'a>(
    alloc: Global,
    arena: &'a Bump,
    cond: &Cond<'a>,
    locks: &[AtomId],
) -> Result<&'a Cond<'a>, Memory>
    ensures { IfOk result
        (λ r. view r.now ≡ Conjunction (formulas_of (view cond.now ∷ map not_opened (atoms_of locks.now)))) }
{
    let mut parts = Vec::new(alloc);
    parts.push(*cond)?;
    for atom in locks {
        parts.push(negate(arena, &Cond::Atom(*atom))?)?;
    }
    let slice = arena.try_alloc_slice_copy(&parts)?;
    let made = arena.try_alloc(Cond::And(slice))?;
    Ok(made)
}

/// A formula, and that none of some actions is opened; the formula alone where there are none.
pub(crate) fn guarded<'a>(
    alloc: Global,
    arena: &'a Bump,
    cond: &'a Cond<'a>,
    locks: &[AtomId],
) -> Result<&'a Cond<'a>, Memory>
    ensures { IfOk result (λ r. view r.now ≡ guarded (view cond.now) (atoms_of locks.now)) }
{
    match locks {
        [] => Ok(cond),
        several => guarded_by(alloc, arena, cond, several),
    }
}

/// The event that needs a formula, and reads, adds and deletes these atoms, each once.
pub(crate) fn event_with<'a>(
    alloc: Global,
    arena: &'a Bump,
    cond: &'a Cond<'a>,
    reads: &[AtomId],
    adds: &[AtomId],
    dels: &[AtomId],
) -> Result<Event<'a>, Memory>
    requires reads { reads_only (has (atoms_of reads.now)) cond.now ≡ true }
    requires apart { have_common (atoms_of adds.now) (atoms_of dels.now) ≡ false }
    ensures { IfOk result
        (λ e. happening_of e ≡ made_of (view cond.now) (atoms_of reads.now) (atoms_of adds.now) (atoms_of dels.now)) }
{
    let reads = ascending(alloc, arena, reads)?;
    let adds = ascending(alloc, arena, adds)?;
    let dels = ascending(alloc, arena, dels)?;
    Ok(Event {
        cond,
        reads,
        adds,
        dels,
    })
}

/// The atoms of the one list and then those of the other.
pub(crate) fn joined(
    alloc: Global,
    first: &[AtomId],
    second: &[AtomId],
) -> Result<Vec<AtomId>, Memory>
    ensures { IfOk result (λ r. atoms_of r.items ≡ atoms_of first.now ++ atoms_of second.now) }
{
    let mut both = Vec::new(alloc);
    both.extend_from_slice(first)?;
    both.extend_from_slice(second)?;
    Ok(both)
}
