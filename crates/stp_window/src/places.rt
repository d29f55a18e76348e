//! The places of two windows that meet and whose events interfere.

ghost use Rattle.std.specs.Prelude.{◌≡◌, IfOk, MatchOption};
ghost use Rattle.stp_window.specs.Sweep.{ClashAt, ClashesAt, ClashesWithNone, NoneMeet};
ghost use Rattle.stp_window.specs.Views.{points_of};

use crate::sweeping::{clash, meeting_windows};
use crate::windows::Window;
use std::alloc::Global;
use stp_base::Memory;

/// The places of two windows in a list.
#[derive(Clone, Copy)]
pub struct Places {
    pub one: usize,
    pub other: usize,
}

/// The place of the first of these windows that meets a window and interferes with it.
fn place_with(one: &Window<'_>, windows: &[Window<'_>]) -> Option<usize>
    ensures { MatchOption result (ClashesWithNone windows.now one.now) (ClashesAt windows.now one.now) }
{
    for place in 0..windows.len() {
        if clash(one, &windows[place]) {
            return Some(place);
        }
    }
    None
}

/// The places of the first two of these windows that meet and interfere.
fn first_places(windows: &[Window<'_>]) -> Option<Places>
    ensures { MatchOption result (NoneMeet (points_of windows.now)) (λ m. ClashAt windows.now m.one m.other) }
{
    for place in 0..windows.len() {
        if let Some(other) = place_with(&windows[place], windows) {
            return Some(Places { one: place, other });
        }
    }
    None
}

/// The places of two of these windows that are of different steps, have a common moment, and whose events interfere,
/// if there are any.
///
/// A sweep tells whether there are any, so that all pairs are compared only where some pair is found.
pub fn meeting_places(alloc: Global, windows: &[Window<'_>]) -> Result<Option<Places>, Memory>
    ensures { IfOk result (λ r. MatchOption r (NoneMeet (points_of windows.now)) (λ m. ClashAt windows.now m.one m.other)) }
{
    if meeting_windows(alloc, windows)?.is_none() {
        return Ok(None);
    }
    Ok(first_places(windows))
}
