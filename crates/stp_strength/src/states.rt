//! What events leave, each at the end of its window.

ghost use Rattle.std.specs.Prelude.{◌≡◌, ℕ, ◌<◌, ◌&&◌, ◌||◌, nat_lt, nat_le, not, true, length, filter, IfOk};
ghost use Rattle.std.specs.List.{list_all, list_any};
ghost use Rattle.stp_cond.specs.Atoms.{has};
ghost use Rattle.stp_cond.specs.Truth.{is_below, meaning_of, state_of_row};
ghost use Rattle.stp_happen.specs.Plain.{state_after};
ghost use Rattle.stp_window.specs.States.{came_by as came_by_lem};
ghost use Rattle.stp_strength.specs.Failures.{of_steps};
ghost use Rattle.stp_window.specs.Certain.{sets as sets_lem};
ghost use Rattle.stp_window.specs.Views.{point_of};
ghost use Rattle.stp_strength.specs.Views.{late_entries};

use std::alloc::Global;
use stp_base::{AtomId, Memory, StateRow};
use stp_cond::{Cond, holds};
use stp_window::{Window, writing};

/// Whether an event adds an atom.
fn adds(window: &Window<'_>, atom: AtomId) -> bool
    ensures { result ≡ has (point_of window.now).event.adds atom.0 }
{
    writing::adds(&window.event, atom)
}

/// Whether an event writes an atom.
fn sets(window: &Window<'_>, atom: AtomId) -> bool
    ensures { result ≡ sets_lem (point_of window.now) atom.0 }
{
    writing::sets(&window.event, atom)
}

/// Whether no event writes an atom at the end of a window that ends later.
fn is_latest(windows: &[Window<'_>], atom: AtomId, time: u128) -> bool
    ensures { result ≡ list_all (λ w. not (sets_lem (point_of w) atom.0) || nat_le w.high time) windows.now }
{
    windows.iter().all(|w| !sets(w, atom) || w.high <= time)
}

/// Whether an event writes an atom.
fn is_written(windows: &[Window<'_>], atom: AtomId) -> bool
    ensures { result ≡ list_any (λ w. sets_lem (point_of w) atom.0) windows.now }
{
    windows.iter().any(|w| sets(w, atom))
}

/// Whether an event adds an atom at the end of a window, where no later end writes it.
fn is_added_last(windows: &[Window<'_>], atom: AtomId) -> bool
    ensures { result ≡ list_any (λ w. has (point_of w).event.adds atom.0 && list_all (λ v. not (sets_lem (point_of v) atom.0) || nat_le v.high w.high) windows.now) windows.now }
{
    windows
        .iter()
        .any(|w| adds(w, atom) && is_latest(windows, atom, w.high))
}

/// What these events leave at an atom.
fn value_after(windows: &[Window<'_>], initial: &StateRow, atom: AtomId) -> bool
    requires { atom.0 < length initial.now }
    ensures { result ≡ state_after (state_of_row initial.now) (late_entries windows.now) atom.0 }
{
    if is_written(windows, atom) {
        is_added_last(windows, atom)
    } else {
        initial.get(atom)
    }
}

/// The row that these events leave.
fn row_after(alloc: Global, windows: &[Window<'_>], initial: &StateRow) -> Result<StateRow, Memory>
    ensures len { IfOk result (λ r. length r ≡ length initial.now) }
    ensures state { IfOk result (λ r. (a : ℕ) → a < length initial.now → state_of_row r a ≡ state_after (state_of_row initial.now) (late_entries windows.now) a) }
{
    let mut row = StateRow::new(alloc, initial.len())?;
    for atom in 0..initial.len() {
        row.set(AtomId(atom), value_after(windows, initial, AtomId(atom)));
    }
    Ok(row)
}

/// Whether a formula holds in what these events leave.
pub(crate) fn holds_after(
    alloc: Global,
    cond: &Cond<'_>,
    windows: &[Window<'_>],
    initial: &StateRow,
) -> Result<bool, Memory>
    requires { is_below (length initial.now) cond.now ≡ true }
    ensures { IfOk result (λ r. r ≡ meaning_of cond.now (state_after (state_of_row initial.now) (late_entries windows.now))) }
{
    let row = row_after(alloc, windows, initial)?;
    Ok(holds(cond, &row))
}

/// The windows that end before a moment.
pub(crate) fn ended_before<'a>(
    alloc: Global,
    windows: &[Window<'a>],
    time: u128,
) -> Result<Vec<Window<'a>>, Memory>
    ensures { IfOk result (λ r. r.items ≡ filter (λ w. nat_lt w.high time) windows.now) }
{
    let ended = windows
        .iter()
        .filter(|w| w.high < time)
        .copied()
        .collect(alloc)?;
    Ok(ended)
}

/// Whether a step is among these.
fn is_chosen(steps: &[u32], step: u32) -> bool
    ensures { result ≡ has steps.now step }
{
    steps.iter().any(|other| *other == step)
}

/// Whether a window has ended by a moment, or has begun and is of one of these steps.
fn has_come(window: &Window<'_>, time: u128, chosen: &[u32]) -> bool
    ensures { result ≡ came_by_lem time (of_steps chosen.now) (point_of window.now) }
{
    window.high <= time || is_chosen(chosen, window.step) && window.low <= time
}

/// The windows that end by a moment, and of those that have begun the ones of these steps.
pub(crate) fn came_by<'a>(
    alloc: Global,
    windows: &[Window<'a>],
    time: u128,
    chosen: &[u32],
) -> Result<Vec<Window<'a>>, Memory>
    ensures { IfOk result (λ r. r.items ≡ filter (λ w. came_by_lem time (of_steps chosen.now) (point_of w)) windows.now) }
{
    let came = windows
        .iter()
        .filter(|w| has_come(w, time, chosen))
        .copied()
        .collect(alloc)?;
    Ok(came)
}
