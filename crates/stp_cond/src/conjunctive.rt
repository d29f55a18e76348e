//! Events that need a conjunction of atoms.

ghost use Rattle.std.specs.Prelude.{◌≡◌, ℕ, ◌<◌, All, IfOk};
ghost use Rattle.stp_cond.specs.Atoms.{conjunctive};
ghost use Rattle.stp_cond.specs.Events.{event_of, IsEventInRange};
ghost use Rattle.stp_cond.specs.Views.{atoms_of};

use crate::cond::conjunction;
use crate::event::Event;
use crate::sets::{ascending, without};
use bumpalo::Bump;
use std::alloc::Global;
use stp_base::{AtomId, Memory};

/// The event that needs all of some atoms, which it reads. It adds and deletes the others; an atom that
/// is in both lists is added.
pub fn conjunctive_event<'a>(
    alloc: Global,
    arena: &'a Bump,
    needs: &[AtomId],
    adds: &[AtomId],
    dels: &[AtomId],
) -> Result<Event<'a>, Memory>
    ensures event { IfOk result
        (λ e. event_of e ≡ conjunctive (atoms_of needs.now) (atoms_of adds.now) (atoms_of dels.now)) }
    ensures in_range { IfOk result
        (λ e. (n : ℕ) → All (λ a. a.0 < n) needs.now → All (λ a. a.0 < n) adds.now → All (λ a. a.0 < n) dels.now → IsEventInRange n e) }
{
    let cond = conjunction(alloc, arena, needs)?;
    let reads = ascending(alloc, arena, needs)?;
    let added = ascending(alloc, arena, adds)?;
    let all_deleted = ascending(alloc, arena, dels)?;
    let deleted = without(arena, all_deleted, added)?;
    Ok(Event {
        cond,
        reads,
        adds: added,
        dels: deleted,
    })
}
