//! Two events of different steps that may meet and interfere.

ghost use Rattle.std.specs.Prelude.{◌≡◌, true, List, IfOk, MatchOption};
ghost use Rattle.stp_window.specs.Sweep.{AreMet};
ghost use Rattle.stp_window.specs.Views.{point_of, points_of};
ghost use Rattle.stp_window.specs.Windows.{Point};
ghost use Rattle.stp_strength.specs.Failures.{all_pairs_pass, stay_calm};
ghost use Rattle.stp_check.specs.Pairs.{AreNotCalm};

use std::alloc::Global;
use stp_base::{Memory, StepId};
use stp_window::{MetWindows, Window, meeting_windows};

/// Two steps, and a moment at which both may have an event.
#[derive(Clone, Copy)]
pub(crate) struct Meeting {
    pub(crate) one: StepId,
    pub(crate) other: StepId,
    pub(crate) time: u128,
}

/// The meeting of two windows, that of the step with the lesser number first.
fn meeting_of(found: &MetWindows<'_>) -> Meeting
    ensures { (points : List Point) → AreMet points (point_of found.now.one) (point_of found.now.other) → AreNotCalm points result.one.0 result.other.0 result.time }
{
    if found.one.step < found.other.step {
        Meeting {
            one: StepId(found.one.step),
            other: StepId(found.other.step),
            time: found.one.low.max(found.other.low),
        }
    } else {
        Meeting {
            one: StepId(found.other.step),
            other: StepId(found.one.step),
            time: found.other.low.max(found.one.low),
        }
    }
}

/// The steps of two of these events that may meet and interfere, and the first moment at which they may.
pub(crate) fn first_meeting(
    alloc: Global,
    windows: &[Window<'_>],
) -> Result<Option<Meeting>, Memory>
    ensures { IfOk result (λ r. MatchOption r
        (all_pairs_pass stay_calm (points_of windows.now) ≡ true)
        (λ found. AreNotCalm (points_of windows.now) found.one.0 found.other.0 found.time)) }
{
    let Some(found) = meeting_windows(alloc, windows)? else {
        return Ok(None);
    };
    Ok(Some(meeting_of(&found)))
}
