//! The plain check: each static fact, tested in the plainest way.

ghost use Rattle.std.specs.Prelude.{◌≡◌, ℕ, ◌==◌, ◌&&◌, ◌||◌, ◌++◌, ◌∷◌, [], ◌↔◌, ◌≤◌, not, true, length, map, filter, All, IfOk, IsTrue};
ghost use Rattle.std.specs.List.{list_all};
ghost use Rattle.stp_cond.specs.Events.{IsEventInRange};
ghost use Rattle.stp_cond.specs.Truth.{is_below, meaning_of};
ghost use Rattle.stp_happen.specs.OwnedViews.{plain_owned};
ghost use Rattle.stp_happen.specs.Boxes.{IsStrong};
ghost use Rattle.stp_window.specs.Boxed.{windows_in};
ghost use Rattle.stp_window.specs.States.{state_at};
ghost use Rattle.stp_window.specs.Windows.{is_unsettled as is_unsettled_lem};
ghost use Rattle.stp_strength.specs.Failures.{is_fed as is_fed_lem, is_kept as is_kept_lem, is_sound as is_sound_lem, of_steps, sublists};
ghost use Rattle.stp_window.specs.Views.{point_of, points_of, span_of, spans_of, box_of};

use crate::pairs::{all_apart, all_calm};
use crate::states::{came_by, ended_before, holds_after};
use std::alloc::Global;
use stp_base::{Memory, StateRow};
use stp_cond::Cond;
use stp_happen::OwnedBox;
use stp_window::windows::is_open;
use stp_window::{Lasting, Window, lasting_of, windows_of};

/// Whether an event finds what it needs in what is certain before its window.
fn is_fed(
    alloc: Global,
    window: &Window<'_>,
    windows: &[Window<'_>],
    initial: &StateRow,
) -> Result<bool, Memory>
    requires { is_below (length initial.now) window.now.event.cond.now ≡ true }
    ensures { IfOk result (λ r. r ≡ is_fed_lem (box_of windows.now [] initial.now Cond.True) (point_of window.now)) }
{
    let certain = ended_before(alloc, windows, window.low)?;
    holds_after(alloc, window.event.cond, &certain, initial)
}

/// Whether each event finds what it needs.
fn all_fed(alloc: Global, windows: &[Window<'_>], initial: &StateRow) -> Result<bool, Memory>
    requires { All (λ w. IsEventInRange (length initial.now) w.event) windows.now }
    ensures { IfOk result (λ r. r ≡ list_all (is_fed_lem (box_of windows.now [] initial.now Cond.True)) (points_of windows.now)) }
{
    for window in windows {
        if !is_fed(alloc, window, windows, initial)? {
            return Ok(false);
        }
    }
    Ok(true)
}

/// Whether a window of another step has begun by a moment and not ended.
fn is_other(window: &Window<'_>, number: u32, time: u128) -> bool
    ensures { result ≡ (is_unsettled_lem time (point_of window.now) && not (window.now.step == number)) }
{
    is_open(window.low, window.high, time) && window.step != number
}

/// The other steps whose ends are unsettled at a moment.
fn others(
    alloc: Global,
    windows: &[Window<'_>],
    number: u32,
    time: u128,
) -> Result<Vec<u32>, Memory>
    ensures { IfOk result (λ r. r.items ≡ map (λ w. w.step) (filter (λ w. is_unsettled_lem time (point_of w) && not (w.step == number)) windows.now)) }
{
    let found = windows
        .iter()
        .filter(|w| is_other(w, number, time))
        .map(|w| w.step)
        .collect(alloc)?;
    Ok(found)
}

/// These steps and one more.
fn with_step(alloc: Global, steps: &[u32], step: u32) -> Result<Vec<u32>, Memory>
    ensures { IfOk result (λ r. r.items ≡ steps.now ++ step ∷ []) }
{
    let mut more = Vec::new(alloc);
    more.extend_from_slice(steps)?;
    more.push(step)?;
    Ok(more)
}

/// Whether a formula holds at a moment where these unsettled steps have ended, and any of the others.
fn passes_all(
    alloc: Global,
    over: &Cond<'_>,
    time: u128,
    windows: &[Window<'_>],
    initial: &StateRow,
    chosen: &[u32],
    others: &[u32],
) -> Result<bool, Memory>
    requires { is_below (length initial.now) over.now ≡ true }
    ensures { IfOk result (λ r. r ≡ list_all (λ steps. meaning_of over.now (state_at (box_of windows.now [] initial.now Cond.True) time (of_steps (chosen.now ++ steps)))) (sublists others.now)) }
{
    if others.is_empty() {
        let came = came_by(alloc, windows, time, chosen)?;
        return holds_after(alloc, over, &came, initial);
    }
    let rest = &others[1..];
    if !passes_all(alloc, over, time, windows, initial, chosen, rest)? {
        return Ok(false);
    }
    let more = with_step(alloc, chosen, others[0])?;
    passes_all(alloc, over, time, windows, initial, &more, rest)
}

/// Whether what has to hold inside a step holds at a moment, if that is inside, whichever of the other
/// unsettled steps have ended.
fn is_kept(
    alloc: Global,
    span: &Lasting<'_>,
    time: u128,
    windows: &[Window<'_>],
    initial: &StateRow,
) -> Result<bool, Memory>
    requires { is_below (length initial.now) span.now.inside.over.now ≡ true }
    ensures { IfOk result (λ r. r ≡ is_kept_lem (box_of windows.now [] initial.now Cond.True) (span_of span.now) time) }
{
    if time < span.owner.start || span.owner.high <= time {
        return Ok(true);
    }
    let others = others(alloc, windows, span.owner.number, time)?;
    passes_all(
        alloc,
        span.inside.over,
        time,
        windows,
        initial,
        &[],
        &others,
    )
}

/// The same at each moment at which a window begins.
fn is_kept_throughout(
    alloc: Global,
    span: &Lasting<'_>,
    windows: &[Window<'_>],
    initial: &StateRow,
) -> Result<bool, Memory>
    requires { is_below (length initial.now) span.now.inside.over.now ≡ true }
    ensures { IfOk result (λ r. r ≡ list_all (is_kept_lem (box_of windows.now [] initial.now Cond.True) (span_of span.now)) (map (λ w. w.low) windows.now)) }
{
    for window in windows {
        if !is_kept(alloc, span, window.low, windows, initial)? {
            return Ok(false);
        }
    }
    Ok(true)
}

/// Whether what has to hold inside a step does, for each step.
fn all_kept(
    alloc: Global,
    spans: &[Lasting<'_>],
    windows: &[Window<'_>],
    initial: &StateRow,
) -> Result<bool, Memory>
    requires { All (λ s. is_below (length initial.now) s.inside.over.now ≡ true) spans.now }
    ensures { IfOk result (λ r. r ≡ list_all (λ s. list_all (is_kept_lem (box_of windows.now [] initial.now Cond.True) s) (map (λ w. w.low) windows.now)) (spans_of spans.now)) }
{
    for span in spans {
        if !is_kept_throughout(alloc, span, windows, initial)? {
            return Ok(false);
        }
    }
    Ok(true)
}

/// Whether these windows and spans have all static facts.
fn has_facts(
    alloc: Global,
    windows: &[Window<'_>],
    spans: &[Lasting<'_>],
    initial: &StateRow,
    goal: &Cond<'_>,
) -> Result<bool, Memory>
    requires windows { All (λ w. IsEventInRange (length initial.now) w.event) windows.now }
    requires spans { All (λ s. is_below (length initial.now) s.inside.over.now ≡ true) spans.now }
    requires goal { is_below (length initial.now) goal.now ≡ true }
    ensures { IfOk result (λ r. r ≡ is_sound_lem (box_of windows.now spans.now initial.now goal.now)) }
{
    if !all_apart(spans) || !all_calm(windows) {
        return Ok(false);
    }
    if !all_fed(alloc, windows, initial)? {
        return Ok(false);
    }
    if !all_kept(alloc, spans, windows, initial)? {
        return Ok(false);
    }
    holds_after(alloc, goal, windows, initial)
}

/// Whether a box has all static facts, and so is strong.
///
/// At each moment every choice out of the unsettled ends is tried, so this is for small boxes.
pub fn is_sound(alloc: Global, boxed: &OwnedBox<'_>) -> Result<bool, Memory>
    ensures check { IfOk result (λ r. r ≡ is_sound_lem (windows_in boxed.now)) }
    ensures strong { IfOk result (λ r. IsTrue r ↔ IsStrong (plain_owned boxed.now)) }
{
    let owners = boxed.owners.as_slice();
    let windows = windows_of(alloc, owners)?;
    let spans = lasting_of(alloc, owners)?;
    has_facts(alloc, &windows, &spans, &boxed.initial, boxed.goal)
}
