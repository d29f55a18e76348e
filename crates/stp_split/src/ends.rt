//! Ends, and what comes of a row when one of them comes.

ghost use Rattle.std.specs.Prelude.{◌≡◌, ◌==◌, ℕ, filter, length, not, IfOk};
ghost use Rattle.stp_cond.specs.Atoms.{changed_by};
ghost use Rattle.stp_cond.specs.Events.{IsEventInRange, event_of};
ghost use Rattle.stp_cond.specs.Truth.{state_of_row};

use std::alloc::Global;
use stp_base::{Memory, StateRow};
use stp_cond::{Event, apply};
use stp_window::Window;

/// The ends of all steps but one.
pub fn without_step<'a>(
    alloc: Global,
    ends: &[Window<'a>],
    step: u32,
) -> Result<Vec<Window<'a>>, Memory>
    ensures { IfOk result (λ r. r.items ≡ filter (λ w. not (w.step == step)) ends.now) }
{
    let rest = ends
        .iter()
        .filter(|end| end.step != step)
        .copied()
        .collect(alloc)?;
    Ok(rest)
}

/// The row after an event.
pub(crate) fn after_event(
    alloc: Global,
    row: &StateRow,
    event: &Event<'_>,
) -> Result<StateRow, Memory>
    requires { IsEventInRange (length row.now) event.now }
    ensures len { IfOk result (λ r. length r ≡ length row.now) }
    ensures state { IfOk result (λ r. (a : ℕ) → state_of_row r a ≡ changed_by (event_of event.now) (state_of_row row.now) a) }
{
    let mut next = row.copy(alloc)?;
    apply(&mut next, event);
    Ok(next)
}
