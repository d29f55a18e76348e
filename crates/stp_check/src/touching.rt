//! Which windows are open or begin at a moment, and which formulas have to be judged then.

ghost use Rattle.std.specs.Prelude.{◌≡◌, ◌==◌, ◌||◌, not, filter, IfOk};
ghost use Rattle.std.specs.List.{list_any};
ghost use Rattle.stp_cond.specs.Truth.{reads_only};
ghost use Rattle.stp_window.specs.Certain.{sets as point_sets};
ghost use Rattle.stp_window.specs.Views.{point_of};
ghost use Rattle.stp_window.specs.Windows.{is_unsettled};
ghost use Rattle.stp_check.specs.Ends.{touches};

use std::alloc::Global;
use stp_base::Memory;
use stp_cond::Cond;
use stp_window::Window;
use stp_window::windows::is_open;
use stp_window::writing::sets;

/// Whether an event writes no atom of a formula.
fn leaves(window: &Window<'_>, cond: &Cond<'_>) -> bool
    ensures { result ≡ reads_only (λ a. not (point_sets (point_of window.now) a)) cond.now }
{
    match cond {
        Cond::True | Cond::False => true,
        Cond::Atom(atom) => !sets(&window.event, *atom),
        Cond::Not(part) => leaves(window, part),
        Cond::And(parts) | Cond::Or(parts) => {
            for part in *parts {
                if !leaves(window, part) {
                    return false;
                }
            }
            true
        }
    }
}

/// Whether a formula has to be judged at a moment at which these windows begin: its step starts then, or an event of
/// one of them writes an atom of it.
pub(crate) fn is_due(cond: &Cond<'_>, begins: &[Window<'_>], start: u128, time: u128) -> bool
    ensures { result ≡ ((start == time) || list_any (λ w. touches cond.now (point_of w)) begins.now) }
{
    if start == time {
        return true;
    }
    for window in begins {
        if !leaves(window, cond) {
            return true;
        }
    }
    false
}

/// The windows that have begun by a moment and not ended.
pub(crate) fn unsettled_at<'a>(
    alloc: Global,
    windows: &[Window<'a>],
    time: u128,
) -> Result<Vec<Window<'a>>, Memory>
    ensures { IfOk result (λ r. r.items ≡ filter (λ w. is_unsettled time (point_of w)) windows.now) }
{
    let unsettled = windows
        .iter()
        .filter(|window| is_open(window.low, window.high, time))
        .copied()
        .collect(alloc)?;
    Ok(unsettled)
}

/// The windows that begin at a moment.
pub(crate) fn beginning_at<'a>(
    alloc: Global,
    windows: &[Window<'a>],
    time: u128,
) -> Result<Vec<Window<'a>>, Memory>
    ensures { IfOk result (λ r. r.items ≡ filter (λ w. w.low == time) windows.now) }
{
    let begins = windows
        .iter()
        .filter(|window| window.low == time)
        .copied()
        .collect(alloc)?;
    Ok(begins)
}
