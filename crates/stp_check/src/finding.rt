//! Whether what has to hold inside steps does, whichever unsettled ends have come.

ghost use Rattle.std.specs.Prelude.{◌≡◌, Bool, true, List as Sequence, length, filter, map, All, IfOk, MatchOption};
ghost use Rattle.stp_cond.specs.Events.{IsEventInRange};
ghost use Rattle.stp_cond.specs.Truth.{is_below};
ghost use Rattle.stp_split.specs.Cases.{AreCases};
ghost use Rattle.stp_window.specs.Views.{points_of};
ghost use Rattle.stp_window.specs.Windows.{IsProper, is_unsettled};
ghost use Rattle.stp_strength.specs.Failures.{all_calm};
ghost use Rattle.stp_check.specs.Ends.{AreJudged};
ghost use Rattle.stp_check.specs.Late.{numbers_of, box_inside, IsKept, IsBroken, IsRowAt};

use crate::carrying::{by_ends, carry, moments_of};
use crate::late::late_at;
use crate::over_all::{OverAll, over_alls_of};
use crate::touching::{beginning_at, unsettled_at};
use std::alloc::Global;
use stp_base::{List, Memory, StateRow, StepId};
use stp_split::known_row;
use stp_window::{Lasting, Window};

/// Steps whose ends come late, so that what has to hold inside one of these steps does not hold at a
/// moment, if there are such steps. The row has what is certain then.
fn late_among(
    alloc: Global,
    over_alls: &[OverAll<'_>],
    windows: &[Window<'_>],
    row: &StateRow,
    time: u128,
) -> Result<Option<List<StepId>>, Memory>
    requires events { All (λ w. IsEventInRange (length row.now) w.event) windows.now }
    requires steps { All (λ h. is_below (length row.now) h.lasting.inside.over.now ≡ true) over_alls.now }
    requires cases { AreCases (filter (is_unsettled time) (points_of windows.now)) }
    ensures { (initial : Sequence Bool) → let b = box_inside windows.now (map (λ h. h.lasting) over_alls.now) initial in
        IsRowAt b time row.now → IfOk result (λ r. MatchOption r (All (AreJudged b time) over_alls.now) (λ late. IsBroken b time (numbers_of late))) }
{
    let unsettled = unsettled_at(alloc, windows, time)?;
    let begins = beginning_at(alloc, windows, time)?;
    let known = known_row(alloc, &unsettled, row)?;
    for one in over_alls {
        if let Some(late) = late_at(alloc, one, &unsettled, &begins, &known, row, time)? {
            return Ok(Some(late));
        }
    }
    Ok(None)
}

/// Steps whose ends come after a moment, so that what has to hold inside some step does not hold then.
#[derive(Drop)]
pub(crate) struct Broken {
    pub(crate) late: List<StepId>,
    pub(crate) time: u128,
}

/// Steps whose ends come after a moment, so that what has to hold inside some step does not hold then, if there are
/// such steps; all others end as soon as they may.
///
/// Points that interfere never meet, so that the events may be taken in the order of their windows' ends.
pub(crate) fn first_broken(
    alloc: Global,
    windows: &[Window<'_>],
    spans: &[Lasting<'_>],
    initial: &StateRow,
) -> Result<Option<Broken>, Memory>
    requires events { All (λ w. IsEventInRange (length initial.now) w.event) windows.now }
    requires spans { All (λ s. is_below (length initial.now) s.inside.over.now ≡ true) spans.now }
    requires calm { all_calm (box_inside windows.now spans.now initial.now) ≡ true }
    requires proper { IsProper (box_inside windows.now spans.now initial.now) }
    ensures { IfOk result (λ r. MatchOption r
        (IsKept (box_inside windows.now spans.now initial.now))
        (λ found. IsBroken (box_inside windows.now spans.now initial.now) found.time (numbers_of found.late))) }
{
    let over_alls = over_alls_of(alloc, spans)?;
    let ordered = by_ends(alloc, windows)?;
    let moments = moments_of(alloc, windows)?;
    let mut row = initial.copy(alloc)?;
    let mut place = 0;
    for time in &moments {
        place = carry(&mut row, &ordered, place, *time);
        if let Some(late) = late_among(alloc, &over_alls, windows, &row, *time)? {
            return Ok(Some(Broken { late, time: *time }));
        }
    }
    Ok(None)
}
