//! The least closed pair of a task.

ghost use Rattle.std.specs.Prelude.{◌≡◌, All, length, IfOk, OnOk};
ghost use Rattle.stp_cond.specs.Events.{IsEventInRange};
ghost use Rattle.stp_task.specs.Certificates.{IsLeastClosed};
ghost use Rattle.stp_task.specs.CertificateViews.{pair_of};
ghost use Rattle.stp_task.specs.SoundTask.{IsActionInRange};
ghost use Rattle.stp_task.specs.Tasks.{plain_task};
ghost use Rattle.stp_relax.specs.Reached.{AreAdmitted, AreTaken, AreTakenAt, HasBegun, IsTakenAt, IsReached};
ghost use Rattle.stp_relax.specs.Seen.{AreSeen, IsUnseen};
ghost use Rattle.stp_relax.specs.Taken.{IsOfSize, pair_so_far};

use crate::listing::listed;
use crate::progress::{Progress, Seen, next};
use crate::taking::{admit, take};
use crate::watching::readers;
use std::alloc::Global;
use stp_base::Memory;
use stp_task::{Certificate, GroundAction, Task, TimedEvent};

/// Takes over what these events of the environment add and delete.
fn admit_all(timed: &[TimedEvent<'_>], progress: &mut Progress) -> Result<(), Memory>
    requires size { IsOfSize (length progress.old.may) progress.old }
    requires in_range { All (λ t. IsEventInRange (length progress.old.may) t.event) timed.now }
    ensures { OnOk result (AreAdmitted timed.now progress.old progress.new) }
{
    for timed_event in timed {
        admit(&timed_event.event, progress)?;
    }
    Ok(())
}

/// What is possible at first, and with the events of the environment.
fn begun(alloc: Global, task: &Task<'_>) -> Result<Progress, Memory>
    ensures { IfOk result (λ r. HasBegun (plain_task task.now) r) }
{
    let mut progress = Progress {
        may: task.initial.copy(alloc)?,
        always: task.initial.copy(alloc)?,
        noted: Vec::new(alloc),
    };
    admit_all(task.timed.as_slice(), &mut progress)?;
    Ok(progress)
}

/// That so many actions have not been looked at.
fn unseen(alloc: Global, count: usize) -> Result<Vec<Seen>, Memory>
    ensures { IfOk result (λ r. (length r.items ≡ count) × All IsUnseen r.items) }
{
    let mut seen = Vec::new(alloc);
    for _ in 0..count {
        seen.push(Seen {
            start: 0,
            over: 0,
            finish: 0,
            has_begun: false,
            has_ended: false,
        })?;
    }
    Ok(seen)
}

/// Takes over what the possible events of the action at a place add and delete, if there is one.
fn take_at(
    actions: &[GroundAction<'_>],
    place: usize,
    seen: &mut Vec<Seen>,
    progress: &mut Progress,
) -> Result<(), Memory>
    requires size { IsOfSize (length progress.old.may) progress.old }
    requires in_range { All (IsActionInRange (length progress.old.may)) actions.now }
    requires seen { AreSeen (pair_so_far progress.old) actions.now seen.old.items }
    ensures taken { OnOk result (IsTakenAt actions.now place progress.old progress.new) }
    ensures seen { OnOk result (AreSeen (pair_so_far progress.new) actions.now seen.new.items) }
{
    let Some(action) = actions.get(place) else {
        return Ok(());
    };
    take(action, &mut seen[place], progress)?;
    Ok(())
}

/// Takes over what the possible events of all actions add and delete.
fn take_all(
    actions: &[GroundAction<'_>],
    seen: &mut Vec<Seen>,
    progress: &mut Progress,
) -> Result<(), Memory>
    requires size { IsOfSize (length progress.old.may) progress.old }
    requires in_range { All (IsActionInRange (length progress.old.may)) actions.now }
    requires seen { AreSeen (pair_so_far progress.old) actions.now seen.old.items }
    ensures taken { OnOk result (AreTaken actions.now progress.old progress.new) }
    ensures seen { OnOk result (AreSeen (pair_so_far progress.new) actions.now seen.new.items) }
{
    for place in 0..actions.len() {
        take_at(actions, place, seen, progress)?;
    }
    Ok(())
}

/// Takes over what the possible events of the actions at these places add and delete.
fn take_readers(
    actions: &[GroundAction<'_>],
    readers: &[usize],
    seen: &mut Vec<Seen>,
    progress: &mut Progress,
) -> Result<(), Memory>
    requires size { IsOfSize (length progress.old.may) progress.old }
    requires in_range { All (IsActionInRange (length progress.old.may)) actions.now }
    requires seen { AreSeen (pair_so_far progress.old) actions.now seen.old.items }
    ensures taken { OnOk result (AreTakenAt actions.now readers.now progress.old progress.new) }
    ensures seen { OnOk result (AreSeen (pair_so_far progress.new) actions.now seen.new.items) }
{
    for reader in readers {
        take_at(actions, *reader, seen, progress)?;
    }
    Ok(())
}

/// All that is possible. Each action is looked at once, and again when one of its atoms is noted.
fn reached(alloc: Global, task: &Task<'_>) -> Result<Progress, Memory>
    ensures { IfOk result (λ r. IsReached (plain_task task.now) r) }
{
    let actions = task.actions.as_slice();
    let readers = readers(alloc, task)?;
    let mut seen = unseen(alloc, actions.len())?;
    let mut progress = begun(alloc, task)?;
    take_all(actions, &mut seen, &mut progress)?;
    while let Some(atom) = next(&mut progress) {
        let Some(these) = readers.get(atom.0 as usize) else {
            continue;
        };
        take_readers(actions, these.as_slice(), &mut seen, &mut progress)?;
    }
    Ok(progress)
}

/// The least closed pair of a task: what may be true, and what is always true.
pub fn reach(alloc: Global, task: &Task<'_>) -> Result<Certificate, Memory>
    ensures { IfOk result (λ r. IsLeastClosed (plain_task task.now) (pair_of r)) }
{
    let progress = reached(alloc, task)?;
    let may = listed(alloc, &progress.may)?;
    let always = listed(alloc, &progress.always)?;
    Ok(Certificate { may, always })
}
