//! What possible events make possible.

ghost use Rattle.std.specs.Prelude.{◌≡◌, ◌<◌, true, All, length, map, IfOk, OnOk, Some};
ghost use Rattle.stp_cond.specs.Events.{IsEventInRange};
ghost use Rattle.stp_cond.specs.Formulas.{formulas_of, view};
ghost use Rattle.stp_cond.specs.Views.{atoms_of};
ghost use Rattle.stp_task.specs.Actions.{action_of, happening_of};
ghost use Rattle.stp_task.specs.Certificates.{all_may_be, possible};
ghost use Rattle.stp_task.specs.SoundTask.{IsActionInRange};
ghost use Rattle.stp_relax.specs.Seen.{AreMet, IsMetUpTo, IsSeen};
ghost use Rattle.stp_relax.specs.Taken.{IsAdmitted, IsBegun, IsFinished, IsMarked, IsOfSize, IsTaken, pair_so_far};

use crate::literals::{Literals, may_be};
use crate::progress::{Progress, Seen};
use stp_base::{AtomId, Memory, StateRow};
use stp_cond::{Cond, Event};
use stp_task::GroundAction;

/// Gives atoms a value in a row, and notes those that had another.
fn mark(
    row: &mut StateRow,
    atoms: &[AtomId],
    value: bool,
    noted: &mut Vec<AtomId>,
) -> Result<(), Memory>
    requires { All (λ a. a.0 < length row.old) atoms.now }
    ensures { OnOk result
        (IsMarked value (atoms_of atoms.now) row.old row.new (atoms_of noted.old.items) (atoms_of noted.new.items)) }
{
    for atom in atoms {
        if row.get(*atom) != value {
            row.set(*atom, value);
            noted.push(*atom)?;
        }
    }
    Ok(())
}

/// Whether a formula is possible as far as is known.
fn is_possible(cond: &Cond<'_>, progress: &Progress) -> bool
    ensures { result ≡ possible (pair_so_far progress.now) (view cond.now) }
{
    may_be(cond, &Literals::Rows(&progress.may, &progress.always), true)
}

/// Whether all of these are possible as far as is known. The first are known to be, and no fewer are afterwards.
fn are_possible(parts: &[Cond<'_>], met: &mut usize, progress: &Progress) -> bool
    requires { AreMet (pair_so_far progress.now) met.old parts.now }
    ensures all { result ≡ all_may_be (pair_so_far progress.now) true (formulas_of (map view parts.now)) }
    ensures met { AreMet (pair_so_far progress.now) met.new parts.now }
{
    while let Some(part) = parts.get(*met) {
        if !is_possible(part, progress) {
            return false;
        }
        *met += 1;
    }
    true
}

/// Whether a condition is possible as far as is known. No member of a conjunction is judged again once it is possible.
fn is_met(cond: &Cond<'_>, met: &mut usize, progress: &Progress) -> bool
    requires { IsMetUpTo (pair_so_far progress.now) met.old cond.now }
    ensures possible { result ≡ possible (pair_so_far progress.now) (view cond.now) }
    ensures met { IsMetUpTo (pair_so_far progress.now) met.new cond.now }
{
    match cond {
        Cond::And(parts) => are_possible(parts, met, progress),
        Cond::True | Cond::False | Cond::Atom(_) | Cond::Not(_) | Cond::Or(_) => {
            is_possible(cond, progress)
        }
    }
}

/// Takes over what an event adds and deletes.
pub(crate) fn admit(event: &Event<'_>, progress: &mut Progress) -> Result<(), Memory>
    requires size { IsOfSize (length progress.old.may) progress.old }
    requires in_range { IsEventInRange (length progress.old.may) event.now }
    ensures { OnOk result (IsAdmitted (happening_of event.now) progress.old progress.new) }
{
    mark(&mut progress.may, event.adds, true, &mut progress.noted)?;
    mark(&mut progress.always, event.dels, false, &mut progress.noted)
}

/// Takes over what the start of an action adds and deletes, once, where it is possible, and says whether it is.
fn take_start(
    action: &GroundAction<'_>,
    seen: &mut Seen,
    progress: &mut Progress,
) -> Result<bool, Memory>
    requires size { IsOfSize (length progress.old.may) progress.old }
    requires in_range { IsEventInRange (length progress.old.may) action.now.start }
    requires seen { IsSeen (pair_so_far progress.old) action.now seen.old }
    ensures possible { IfOk result (λ r. r ≡ possible (pair_so_far progress.old) (view action.now.start.cond.now)) }
    ensures taken { OnOk result (IsBegun (happening_of action.now.start) progress.old progress.new) }
    ensures seen { OnOk result (IsSeen (pair_so_far progress.new) action.now seen.new) }
{
    if seen.has_begun {
        return Ok(true);
    }
    if !is_met(action.start.cond, &mut seen.start, progress) {
        return Ok(false);
    }
    admit(&action.start, progress)?;
    seen.has_begun = true;
    Ok(true)
}

/// Takes over what the end of an action adds and deletes, once, if it is possible, where the start is.
fn take_end(
    action: &GroundAction<'_>,
    finish: &Event<'_>,
    seen: &mut Seen,
    progress: &mut Progress,
) -> Result<(), Memory>
    requires size { IsOfSize (length progress.old.may) progress.old }
    requires in_range { IsEventInRange (length progress.old.may) finish.now }
    requires finish { action.now.finish ≡ Some finish.now }
    requires seen { IsSeen (pair_so_far progress.old) action.now seen.old }
    ensures taken { OnOk result (IsFinished (view action.now.over.now) (happening_of finish.now) progress.old progress.new) }
    ensures seen { OnOk result (IsSeen (pair_so_far progress.new) action.now seen.new) }
{
    if seen.has_ended {
        return Ok(());
    }
    if is_met(action.over, &mut seen.over, progress)
        && is_met(finish.cond, &mut seen.finish, progress)
    {
        admit(finish, progress)?;
        seen.has_ended = true;
    }
    Ok(())
}

/// Takes over what the possible events of an action add and delete.
pub(crate) fn take(
    action: &GroundAction<'_>,
    seen: &mut Seen,
    progress: &mut Progress,
) -> Result<(), Memory>
    requires size { IsOfSize (length progress.old.may) progress.old }
    requires in_range { IsActionInRange (length progress.old.may) action.now }
    requires seen { IsSeen (pair_so_far progress.old) action.now seen.old }
    ensures taken { OnOk result (IsTaken (action_of action.now) progress.old progress.new) }
    ensures seen { OnOk result (IsSeen (pair_so_far progress.new) action.now seen.new) }
{
    if !take_start(action, seen, progress)? {
        return Ok(());
    }
    let Some(finish) = action.finish else {
        return Ok(());
    };
    take_end(action, &finish, seen, progress)?;
    Ok(())
}
