//! Whether a box is strong, and else durations at which it fails.

ghost use Rattle.std.specs.Prelude.{◌≡◌, ◌↔◌, true, length, All, IfOk, IsTrue, MatchOption};
ghost use Rattle.stp_cond.specs.Events.{IsEventInRange};
ghost use Rattle.stp_cond.specs.Truth.{is_below};
ghost use Rattle.stp_happen.specs.BoxViews.{plain_box};
ghost use Rattle.stp_happen.specs.Boxes.{IsStrong, IsVector, run_under};
ghost use Rattle.stp_happen.specs.LeastFailure.{IsFailure};
ghost use Rattle.stp_happen.specs.OwnedViews.{plain_owned};
ghost use Rattle.stp_happen.specs.Plain.{Executes};
ghost use Rattle.stp_window.specs.Boxed.{windows_in};
ghost use Rattle.stp_window.specs.Views.{points_of, spans_of};
ghost use Rattle.stp_strength.specs.Failures.{all_calm, all_pairs_pass, stay_apart};
ghost use Rattle.stp_check.specs.Late.{IsKept};
ghost use Rattle.stp_check.specs.Verdicts.{ExecutesEarliest, IsVerdictOn};

use crate::choices::{Choice, durations};
use crate::finding::first_broken;
use crate::meetings::first_meeting;
use crate::overlaps::first_overlap;
use std::alloc::Global;
use stp_base::{List, Memory, StateRow};
use stp_happen::run_at::run_by_owners;
use stp_happen::{BoxRun, OwnedBox, by_owners, first_fault};
use stp_window::{Lasting, Window, lasting_of, windows_of};

/// The verdict on a box.
#[derive(Drop)]
pub enum Verdict {
    /// It executes whatever durations are chosen.
    Strong,
    /// It fails at these durations of its uncertain steps.
    Weak(List<u128>),
}

/// Whether a box executes at these durations.
pub(crate) fn executes(
    alloc: Global,
    boxed: &OwnedBox<'_>,
    durations: &[u128],
) -> Result<bool, Memory>
    requires { IsVector (plain_owned boxed.now).owners durations.now }
    ensures { IfOk result (λ r. IsTrue r ↔ Executes (run_under (plain_owned boxed.now) durations.now)) }
{
    let run = run_by_owners(alloc, boxed, durations)?;
    let mut row = StateRow::new(alloc, run.initial.len())?;
    Ok(first_fault(&run, &mut row).is_none())
}

/// The durations at which each step ends as soon as it can, if the box fails at them.
fn failing_earliest(alloc: Global, boxed: &OwnedBox<'_>) -> Result<Option<List<u128>>, Memory>
    ensures { IfOk result (λ r. MatchOption r (ExecutesEarliest (plain_owned boxed.now)) (IsFailure (plain_owned boxed.now))) }
{
    let earliest = durations(alloc, boxed, Choice::Near(&[], 0))?;
    if executes(alloc, boxed, earliest.as_slice())? {
        return Ok(None);
    }
    Ok(Some(earliest))
}

/// Durations at which two steps of one action run at one moment, if there are any.
fn failing_overlap(
    alloc: Global,
    boxed: &OwnedBox<'_>,
    spans: &[Lasting<'_>],
) -> Result<Option<List<u128>>, Memory>
    requires { spans_of spans.now ≡ (windows_in boxed.now).spans }
    ensures { IfOk result (λ r. MatchOption r
        (all_pairs_pass stay_apart (windows_in boxed.now).spans ≡ true)
        (IsFailure (plain_owned boxed.now))) }
{
    let Some(found) = first_overlap(spans) else {
        return Ok(None);
    };
    let lasting = durations(alloc, boxed, Choice::Near(&[found.step], found.time))?;
    Ok(Some(lasting))
}

/// Durations at which two events meet and interfere, if there are any.
fn failing_meeting(
    alloc: Global,
    boxed: &OwnedBox<'_>,
    windows: &[Window<'_>],
) -> Result<Option<List<u128>>, Memory>
    requires { points_of windows.now ≡ (windows_in boxed.now).points }
    ensures { IfOk result (λ r. MatchOption r
        (all_calm (windows_in boxed.now) ≡ true)
        (IsFailure (plain_owned boxed.now))) }
{
    let Some(found) = first_meeting(alloc, windows)? else {
        return Ok(None);
    };
    let both = [found.one, found.other];
    let together = durations(alloc, boxed, Choice::Near(&both, found.time))?;
    Ok(Some(together))
}

/// Durations at which what has to hold inside some step does not, if there are any, in a box in which no
/// events may meet and interfere.
fn failing_inside(
    alloc: Global,
    boxed: &OwnedBox<'_>,
    windows: &[Window<'_>],
    spans: &[Lasting<'_>],
) -> Result<Option<List<u128>>, Memory>
    requires windows { points_of windows.now ≡ (windows_in boxed.now).points }
    requires spans { spans_of spans.now ≡ (windows_in boxed.now).spans }
    requires windows_in_range { All (λ w. IsEventInRange (length boxed.now.initial) w.event) windows.now }
    requires spans_in_range { All (λ s. is_below (length boxed.now.initial) s.inside.over.now ≡ true) spans.now }
    requires calm { all_calm (windows_in boxed.now) ≡ true }
    ensures { IfOk result (λ r. MatchOption r
        (IsKept (windows_in boxed.now))
        (IsFailure (plain_owned boxed.now))) }
{
    let Some(found) = first_broken(alloc, windows, spans, &boxed.initial)? else {
        return Ok(None);
    };
    let after = Choice::After(found.late.as_slice(), found.time);
    let broken = durations(alloc, boxed, after)?;
    Ok(Some(broken))
}

/// Durations at which a box fails, if there are any.
fn failing(alloc: Global, boxed: &OwnedBox<'_>) -> Result<Option<List<u128>>, Memory>
    ensures { IfOk result (λ r. MatchOption r (IsStrong (plain_owned boxed.now)) (IsFailure (plain_owned boxed.now))) }
{
    let earliest = failing_earliest(alloc, boxed)?;
    if earliest.is_some() {
        return Ok(earliest);
    }
    let owners = boxed.owners.as_slice();
    let spans = lasting_of(alloc, owners)?;
    let overlap = failing_overlap(alloc, boxed, &spans)?;
    if overlap.is_some() {
        return Ok(overlap);
    }
    let windows = windows_of(alloc, owners)?;
    let meeting = failing_meeting(alloc, boxed, &windows)?;
    if meeting.is_some() {
        return Ok(meeting);
    }
    failing_inside(alloc, boxed, &windows, &spans)
}

/// Whether a box of owners is strong, and else durations on its own grid at which it fails.
///
/// Only the owners that take part in the fault that was found end later than they could.
pub fn strong_by_owners(alloc: Global, boxed: &OwnedBox<'_>) -> Result<Verdict, Memory>
    ensures verdict { IfOk result (λ v. IsVerdictOn (plain_owned boxed.now) v) }
    ensures exactly { IfOk result (λ v. (v ≡ Verdict.Strong) ↔ IsStrong (plain_owned boxed.now)) }
{
    match failing(alloc, boxed)? {
        Some(durations) => Ok(Verdict::Weak(durations)),
        None => Ok(Verdict::Strong),
    }
}

/// Whether a box is strong, and else durations on its own grid at which it fails: one for each uncertain step, in
/// order, and then a moment for each event of the environment whose moment is chosen.
pub fn strong(alloc: Global, boxed: &BoxRun<'_>) -> Result<Verdict, Memory>
    ensures verdict { IfOk result (λ v. IsVerdictOn (plain_box boxed.now) v) }
    ensures exactly { IfOk result (λ v. (v ≡ Verdict.Strong) ↔ IsStrong (plain_box boxed.now)) }
{
    let owned = by_owners(alloc, boxed)?;
    strong_by_owners(alloc, &owned)
}
