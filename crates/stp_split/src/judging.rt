//! Which ends come, so that a formula does not have the truth that is wanted.

ghost use Rattle.std.specs.Prelude.{◌≡◌, ◌<◌, ◌++◌, true, not, [], length, drop, map, All, Contains, IfOk, MatchOption, OnOk};
ghost use Rattle.stp_cond.specs.Events.{IsEventInRange};
ghost use Rattle.stp_cond.specs.Truth.{all_of, is_below, state_of_row};
ghost use Rattle.stp_split.specs.Cases.{AreCases, turns};
ghost use Rattle.stp_split.specs.Judged.{AtomFailsAt, EachAlways, EachFails, FailsAt, IsAlways, IsAtomAlways, OneFails, SomeAlways};
ghost use Rattle.stp_window.specs.Views.{point_of, points_of};

use crate::ends::{after_event, without_step};
use crate::turning::{changes, shared};
use std::alloc::Global;
use stp_base::{AtomId, List, Memory, StateRow};
use stp_cond::Cond;
use stp_window::Window;

/// No ends, if a truth is not the one that is wanted.
fn failing_constant(alloc: Global, truth: bool, want: bool) -> Option<List<u32>>
    ensures { MatchOption result (truth ≡ want) (λ steps. (steps ≡ []) × (truth ≡ not want)) }
{
    if truth == want {
        None
    } else {
        Some(List::new(alloc))
    }
}

/// The steps of ends, at most one, that come so that an atom does not have the value that is wanted.
fn failing_atom(
    alloc: Global,
    atom: AtomId,
    want: bool,
    ends: &[Window<'_>],
    row: &StateRow,
) -> Result<Option<List<u32>>, Memory>
    requires atom { atom.0 < length row.now }
    requires cases { AreCases (points_of ends.now) }
    ensures { IfOk result (λ r. MatchOption r
        (IsAtomAlways atom.0 want (points_of ends.now) (state_of_row row.now))
        (λ steps. AtomFailsAt atom.0 want (points_of ends.now) (state_of_row row.now) steps)) }
{
    let mut steps = List::new(alloc);
    if row.get(atom) != want {
        return Ok(Some(steps));
    }
    for end in ends {
        if changes(end, atom, row) {
            steps.push(end.step)?;
            return Ok(Some(steps));
        }
    }
    Ok(None)
}

/// Puts the steps of the one list at the end of the other.
fn push_all(steps: &mut List<u32>, more: &[u32]) -> Result<(), Memory>
    ensures { OnOk result (steps.new ≡ steps.old ++ more.now) }
{
    for step in more {
        steps.push(*step)?;
    }
    Ok(())
}

/// The steps of ends that come so that one of these formulas does not have the truth that is wanted.
#[cycle(failing)]
fn failing_one(
    alloc: Global,
    conds: &[Cond<'_>],
    want: bool,
    ends: &[Window<'_>],
    row: &StateRow,
) -> Result<Option<List<u32>>, Memory>
    requires conds { all_of (map (is_below (length row.now)) conds.now) ≡ true }
    requires events { All (λ w. IsEventInRange (length row.now) w.event) ends.now }
    requires cases { AreCases (points_of ends.now) }
    ensures { IfOk result (λ r. MatchOption r
        (EachAlways conds.now want (points_of ends.now) (state_of_row row.now))
        (λ steps. OneFails conds.now want (points_of ends.now) (state_of_row row.now) steps)) }
{
    for cond in conds {
        if let Some(steps) = failing(alloc, cond, want, ends, row)? {
            return Ok(Some(steps));
        }
    }
    Ok(None)
}

/// The steps of ends that come so that none of the formulas from a place on has the truth that is wanted, where an
/// end would change an atom of the first and one of the others. The end does not come, or it does.
#[cycle(failing)]
fn failing_by_cases(
    alloc: Global,
    conds: &[Cond<'_>],
    start: usize,
    want: bool,
    ends: &[Window<'_>],
    end: &Window<'_>,
    row: &StateRow,
) -> Result<Option<List<u32>>, Memory>
    requires conds { all_of (map (is_below (length row.now)) conds.now) ≡ true }
    requires events { All (λ w. IsEventInRange (length row.now) w.event) ends.now }
    requires cases { AreCases (points_of ends.now) }
    requires there { Contains ends.now end.now }
    requires turned { (c : Cond) × Contains (drop start conds.now) c × (turns (point_of end.now) (state_of_row row.now) c ≡ true) }
    ensures { IfOk result (λ r. MatchOption r
        (SomeAlways (drop start conds.now) want (points_of ends.now) (state_of_row row.now))
        (λ steps. EachFails (drop start conds.now) want (points_of ends.now) (state_of_row row.now) steps)) }
{
    let rest = without_step(alloc, ends, end.step)?;
    if let Some(steps) = failing_all(alloc, conds, start, want, &rest, row)? {
        return Ok(Some(steps));
    }
    let next = after_event(alloc, row, &end.event)?;
    let Some(mut steps) = failing_all(alloc, conds, start, want, &rest, &next)? else {
        return Ok(None);
    };
    steps.push(end.step)?;
    Ok(Some(steps))
}

/// The steps of ends that come so that none of the formulas from a place on has the truth that is wanted.
///
/// A formula that shares no end with those after it is judged apart.
#[cycle(failing)]
fn failing_all(
    alloc: Global,
    conds: &[Cond<'_>],
    start: usize,
    want: bool,
    ends: &[Window<'_>],
    row: &StateRow,
) -> Result<Option<List<u32>>, Memory>
    requires conds { all_of (map (is_below (length row.now)) conds.now) ≡ true }
    requires events { All (λ w. IsEventInRange (length row.now) w.event) ends.now }
    requires cases { AreCases (points_of ends.now) }
    ensures { IfOk result (λ r. MatchOption r
        (SomeAlways (drop start conds.now) want (points_of ends.now) (state_of_row row.now))
        (λ steps. EachFails (drop start conds.now) want (points_of ends.now) (state_of_row row.now) steps)) }
{
    let mut steps = List::new(alloc);
    for place in start..conds.len() {
        let cond = &conds[place];
        if let Some(end) = shared(ends, cond, conds, place + 1, row) {
            let split = failing_by_cases(alloc, conds, place, want, ends, end, row)?;
            let Some(more) = split else {
                return Ok(None);
            };
            push_all(&mut steps, more.as_slice())?;
            return Ok(Some(steps));
        }
        let Some(more) = failing(alloc, cond, want, ends, row)? else {
            return Ok(None);
        };
        push_all(&mut steps, more.as_slice())?;
    }
    Ok(Some(steps))
}

/// The steps of ends that come so that a formula does not have the truth that is wanted, if there are such ends: of
/// these ends each may have come or not. The row has what is so before any of them comes.
///
/// Where an end would change atoms of two members that must fail together, it does not come, or it does, and both
/// cases are judged. All other members are judged apart.
#[cycle(failing)]
pub fn failing(
    alloc: Global,
    cond: &Cond<'_>,
    want: bool,
    ends: &[Window<'_>],
    row: &StateRow,
) -> Result<Option<List<u32>>, Memory>
    requires cond { is_below (length row.now) cond.now ≡ true }
    requires events { All (λ w. IsEventInRange (length row.now) w.event) ends.now }
    requires cases { AreCases (points_of ends.now) }
    ensures { IfOk result (λ r. MatchOption r
        (IsAlways cond.now want (points_of ends.now) (state_of_row row.now))
        (λ steps. FailsAt cond.now want (points_of ends.now) (state_of_row row.now) steps)) }
{
    match cond {
        Cond::True => Ok(failing_constant(alloc, true, want)),
        Cond::False => Ok(failing_constant(alloc, false, want)),
        Cond::Atom(atom) => failing_atom(alloc, *atom, want, ends, row),
        Cond::Not(part) => failing(alloc, part, !want, ends, row),
        Cond::And(parts) => {
            if want {
                failing_one(alloc, parts, want, ends, row)
            } else {
                failing_all(alloc, parts, 0, want, ends, row)
            }
        }
        Cond::Or(parts) => {
            if want {
                failing_all(alloc, parts, 0, want, ends, row)
            } else {
                failing_one(alloc, parts, want, ends, row)
            }
        }
    }
}
