//! Which uncertain ends lock out an event.

ghost use Rattle.std.specs.Prelude.{◌≡◌, length, map, filter, IfOk};
ghost use Rattle.stp_cond.specs.Events.{event_of};
ghost use Rattle.stp_cond.specs.Views.{atoms_of};
ghost use Rattle.stp_rewrite.specs.Ends.{end_view, end_views, is_lock};

use crate::end::End;
use std::alloc::Global;
use stp_base::{ActionId, AtomId, Memory};
use stp_cond::{Event, interfere};

/// Whether an event of an action is locked by an end.
fn is_lock(end: &End<'_>, action: ActionId, event: &Event<'_>) -> bool
    ensures { result ≡ is_lock action.0 (event_of event.now) (end_view end.now) }
{
    end.action.0 != action.0 && interfere(event, &end.event)
}

/// The opened atoms of those of these ends by which an event of an action is locked.
pub(crate) fn locks_among(
    alloc: Global,
    ends: &[End<'_>],
    action: ActionId,
    event: &Event<'_>,
) -> Result<Vec<AtomId>, Memory>
    ensures { IfOk result
        (λ r. atoms_of r.items ≡ map (λ o. o.opened) (filter (is_lock action.0 (event_of event.now)) (end_views ends.now))) }
{
    let mut locks = Vec::new(alloc);
    for end in ends {
        if is_lock(end, action, event) {
            locks.push(end.opened)?;
        }
    }
    Ok(locks)
}

/// By how many of these ends an event of an action is locked.
pub(crate) fn count_among(ends: &[End<'_>], action: ActionId, event: &Event<'_>) -> usize
    ensures { result ≡ length (filter (is_lock action.0 (event_of event.now)) (end_views ends.now)) }
{
    let mut count = 0;
    for end in ends {
        if is_lock(end, action, event) {
            count += 1;
        }
    }
    count
}
