//! Steps that end late, so that what has to hold inside a step does not hold.

ghost use Rattle.std.specs.Prelude.{◌≡◌, ◌∷◌, true, not, length, map, filter, All, Contains, IfOk, MatchOption};
ghost use Rattle.stp_cond.specs.Atoms.{has};
ghost use Rattle.stp_cond.specs.Events.{IsEventInRange};
ghost use Rattle.stp_cond.specs.Truth.{is_below, state_of_row};
ghost use Rattle.stp_split.specs.Cases.{AreCases, without_step};
ghost use Rattle.stp_split.specs.Judged.{IsAlways};
ghost use Rattle.stp_split.specs.Known.{IsKnownRow};
ghost use Rattle.stp_window.specs.Views.{points_of, span_of};
ghost use Rattle.stp_window.specs.Windows.{WindowBox};
ghost use Rattle.stp_check.specs.Ends.{AreJudged, IsLateWithout, IsSeenAt};
ghost use Rattle.stp_check.specs.Late.{numbers_of, IsBroken};

use crate::over_all::OverAll;
use crate::touching::is_due;
use std::alloc::Global;
use stp_base::{List, Memory, StateRow, StepId};
use stp_cond::{Cond, Three};
use stp_split::{ends, failing, is_known_to_hold};
use stp_window::Window;

/// Whether a step is among these.
fn is_among(steps: &[u32], step: u32) -> bool
    ensures { result ≡ has steps.now step }
{
    steps.iter().any(|other| *other == step)
}

/// A step, and those of these ends' steps that are not among the ones that have ended.
fn late_steps(
    alloc: Global,
    number: u32,
    ends: &[Window<'_>],
    ended: &[u32],
) -> Result<List<StepId>, Memory>
    ensures { IfOk result (λ r. numbers_of r ≡ number ∷ filter (λ n. not (has ended.now n)) (map (λ w. w.step) ends.now)) }
{
    let mut late = List::new(alloc);
    late.push(StepId(number))?;
    for end in ends {
        if !is_among(ended, end.step) {
            late.push(StepId(end.step))?;
        }
    }
    Ok(late)
}

/// A step and other steps whose ends come late, so that a formula does not hold in a row at which these windows are
/// unsettled, if there are such steps.
fn late_for(
    alloc: Global,
    number: u32,
    cond: &Cond<'_>,
    unsettled: &[Window<'_>],
    known: &[Three],
    row: &StateRow,
) -> Result<Option<List<StepId>>, Memory>
    requires cond { is_below (length row.now) cond.now ≡ true }
    requires events { All (λ w. IsEventInRange (length row.now) w.event) unsettled.now }
    requires cases { AreCases (points_of unsettled.now) }
    requires known { IsKnownRow known.now (points_of unsettled.now) (state_of_row row.now) }
    requires len { length known.now ≡ length row.now }
    ensures { let others = without_step number (points_of unsettled.now) in
        IfOk result (λ r. MatchOption r
        (IsAlways cond.now true others (state_of_row row.now))
        (λ late. IsLateWithout cond.now number others (state_of_row row.now) (numbers_of late))) }
{
    if is_known_to_hold(cond, known) {
        return Ok(None);
    }
    let others = ends::without_step(alloc, unsettled, number)?;
    let Some(come) = failing(alloc, cond, true, &others, row)? else {
        return Ok(None);
    };
    let late = late_steps(alloc, number, &others, come.as_slice())?;
    Ok(Some(late))
}

/// Steps whose ends come late, so that what has to hold inside a step does not hold at a moment at which these
/// windows are unsettled and these begin, if there are such steps. The row has what is certain then.
///
/// Each member is judged by itself, and only where its step starts or one of its atoms may first be written.
pub(crate) fn late_at(
    alloc: Global,
    over_all: &OverAll<'_>,
    unsettled: &[Window<'_>],
    begins: &[Window<'_>],
    known: &[Three],
    row: &StateRow,
    time: u128,
) -> Result<Option<List<StepId>>, Memory>
    requires over { is_below (length row.now) over_all.now.lasting.inside.over.now ≡ true }
    requires events { All (λ w. IsEventInRange (length row.now) w.event) unsettled.now }
    requires cases { AreCases (points_of unsettled.now) }
    requires known { IsKnownRow known.now (points_of unsettled.now) (state_of_row row.now) }
    requires len { length known.now ≡ length row.now }
    ensures { (b : WindowBox) → IsSeenAt b time row.now (points_of unsettled.now) (points_of begins.now) → Contains b.spans (span_of over_all.now.lasting) →
        IfOk result (λ r. MatchOption r (AreJudged b time over_all.now) (λ late. IsBroken b time (numbers_of late))) }
{
    let owner = &over_all.lasting.owner;
    if time < owner.start || owner.high <= time {
        return Ok(None);
    }
    for member in over_all.members.as_slice() {
        if is_due(member, begins, owner.start, time) {
            if let Some(late) = late_for(alloc, owner.number, member, unsettled, known, row)? {
                return Ok(Some(late));
            }
        }
    }
    Ok(None)
}
