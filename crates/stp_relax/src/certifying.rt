//! Whether a certificate shows that a goal cannot be reached.

ghost use Rattle.std.specs.Prelude.{◌≡◌, ◌↔◌, ℕ, true, map, IsTrue};
ghost use Rattle.std.specs.List.{list_all};
ghost use Rattle.stp_cond.specs.Atoms.{has, set_of};
ghost use Rattle.stp_cond.specs.Truth.{state_of_row};
ghost use Rattle.stp_cond.specs.Views.{atoms_of};
ghost use Rattle.stp_task.specs.Actions.{action_of, happening_of};
ghost use Rattle.stp_task.specs.Certificates.{IsCertificate, IsClosed};
ghost use Rattle.stp_task.specs.CertificateViews.{pair_of};
ghost use Rattle.stp_task.specs.Tasks.{plain_task, timed_event_of};
ghost use Rattle.stp_relax.specs.Judged.{allows, is_allowed, is_timed_allowed};

use crate::judging::possible;
use crate::literals::is_set;
use stp_base::{AtomId, StateRow};
use stp_cond::{Event, have_common, is_among};
use stp_task::{Certificate, GroundAction, Task, TimedEvent};

/// Whether all that is true in a row may be true.
fn may_all(row: &StateRow, cert: &Certificate) -> bool
    ensures { IsTrue result ↔ ((a : ℕ) → state_of_row row.now a ≡ true → has (atoms_of cert.now.may) a ≡ true) }
{
    for number in 0..row.len() {
        let atom = AtomId(number);
        if row.get(atom) && !is_among(cert.may.as_slice(), atom) {
            return false;
        }
    }
    true
}

/// Whether all of these atoms are true in a row.
fn are_set(atoms: &[AtomId], row: &StateRow) -> bool
    ensures { result ≡ list_all (state_of_row row.now) (atoms_of atoms.now) }
{
    for atom in atoms {
        if !is_set(row, *atom) {
            return false;
        }
    }
    true
}

/// Whether all of these atoms are among others, which ascend.
fn are_among(atoms: &[AtomId], others: &[AtomId]) -> bool
    requires { set_of (atoms_of others.now) ≡ atoms_of others.now }
    ensures { result ≡ list_all (has (atoms_of others.now)) (atoms_of atoms.now) }
{
    for atom in atoms {
        if !is_among(others, *atom) {
            return false;
        }
    }
    true
}

/// Whether all that an event adds may be true, and nothing that it deletes is always true.
fn is_allowed(event: &Event<'_>, cert: &Certificate) -> bool
    ensures { result ≡ is_allowed (pair_of cert.now) (happening_of event.now) }
{
    are_among(event.adds, cert.may.as_slice()) && !have_common(event.dels, cert.always.as_slice())
}

/// Whether each possible event of an action is allowed.
fn allows(action: &GroundAction<'_>, cert: &Certificate) -> bool
    ensures { result ≡ allows (pair_of cert.now) (action_of action.now) }
{
    if !possible(action.start.cond, cert) {
        return true;
    }
    if !is_allowed(&action.start, cert) {
        return false;
    }
    let Some(finish) = action.finish else {
        return true;
    };
    !possible(action.over, cert) || !possible(finish.cond, cert) || is_allowed(&finish, cert)
}

/// Whether each possible event of these actions is allowed.
fn allow_all(actions: &[GroundAction<'_>], cert: &Certificate) -> bool
    ensures { result ≡ list_all (allows (pair_of cert.now)) (map action_of actions.now) }
{
    for action in actions {
        if !allows(action, cert) {
            return false;
        }
    }
    true
}

/// Whether each of these events is allowed.
fn are_allowed(timed: &[TimedEvent<'_>], cert: &Certificate) -> bool
    ensures { result ≡ list_all (is_timed_allowed (pair_of cert.now)) (map timed_event_of timed.now) }
{
    for timed_event in timed {
        if !is_allowed(&timed_event.event, cert) {
            return false;
        }
    }
    true
}

/// Whether a certificate's pair of lists is closed.
fn is_closed(task: &Task<'_>, cert: &Certificate) -> bool
    ensures { IsTrue result ↔ IsClosed (plain_task task.now) (pair_of cert.now) }
{
    if !may_all(&task.initial, cert) {
        return false;
    }
    if !are_set(cert.always.as_slice(), &task.initial) {
        return false;
    }
    if !allow_all(task.actions.as_slice(), cert) {
        return false;
    }
    are_allowed(task.timed.as_slice(), cert)
}

/// Whether a certificate shows that the goal of a task cannot be reached.
pub fn is_certificate(task: &Task<'_>, cert: &Certificate) -> bool
    ensures { IsTrue result ↔ IsCertificate (plain_task task.now) (pair_of cert.now) }
{
    is_closed(task, cert) && !possible(task.goal, cert)
}
