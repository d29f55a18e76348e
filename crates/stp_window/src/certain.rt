//! What is certain of an atom at a moment.

ghost use Rattle.std.specs.Prelude.{◌≡◌, ℕ, ◌<◌, ◌≤◌, ◌++◌, ◌∷◌, [], ◌&&◌, nat_le, not, true, List, Contains, length};
ghost use Rattle.stp_cond.specs.Atoms.{has};
ghost use Rattle.stp_cond.specs.Events.{event_of};
ghost use Rattle.stp_cond.specs.Truth.{state_of_row};
ghost use Rattle.stp_happen.specs.BoxViews.{plain_box};
ghost use Rattle.stp_happen.specs.Owners.{step_owner, step_owners, timed_owners};
ghost use Rattle.stp_happen.specs.StepViews.{step_of, steps_of, timed_of};
ghost use Rattle.stp_window.specs.Boxed.{windows_in_run};
ghost use Rattle.stp_window.specs.Certain.{sets as sets_lem, NoneClash, IsLastWriter, certain_value as certain_value_lem};
ghost use Rattle.stp_window.specs.LastWrites.{writes, has_later, IsLastWrite};
ghost use Rattle.stp_window.specs.OwnerWindows.{points_of_owner, points_of_owners};
ghost use Rattle.stp_window.specs.Windows.{Point};

use crate::writing::{adds, sets};
use stp_base::AtomId;
use stp_cond::Event;
use stp_happen::{BoxRun, BoxStep, BoxTimed};

/// That an event writes an atom: when its window ends, and whether it adds the atom.
#[derive(Clone, Copy)]
struct Write {
    end: u128,
    adds: bool,
}

/// Whether there is a write at the end of a window that ends later.
fn is_before(end: u128, last: Option<Write>) -> bool
    ensures { result ≡ has_later end last }
{
    match last {
        Some(write) => end < write.end,
        None => false,
    }
}

/// Whether an event writes an atom by a moment, and no write so far is at a later end.
fn is_last(event: &Event<'_>, atom: AtomId, end: u128, time: u128, last: Option<Write>) -> bool
    ensures { result ≡ (writes (event_of event.now) atom.0 && (nat_le end time && not (has_later end last))) }
{
    sets(event, atom) && (end <= time && !is_before(end, last))
}

/// The last write of an atom by a moment, with one more event that may write it.
fn with_event(
    last: Option<Write>,
    end: u128,
    event: &Event<'_>,
    atom: AtomId,
    time: u128,
) -> Option<Write>
    ensures { (seen : List Point) (p : Point) → p.high ≡ end → p.event ≡ event_of event.now → IsLastWrite seen atom.0 time last → IsLastWrite (seen ++ p ∷ []) atom.0 time result }
{
    if is_last(event, atom, end, time, last) {
        let adds = adds(event, atom);
        Some(Write { end, adds })
    } else {
        last
    }
}

/// The last write of an atom by a moment, with the events of one more step.
fn with_step(last: Option<Write>, step: &BoxStep<'_>, atom: AtomId, time: u128) -> Option<Write>
    ensures { (seen : List Point) (number : ℕ) → IsLastWrite seen atom.0 time last → IsLastWrite (seen ++ points_of_owner (step_owner number (step_of step.now))) atom.0 time result }
{
    let with_first = with_event(last, step.start, &step.first, atom, time);
    match &step.last {
        Some(event) => with_event(with_first, step.high, event, atom, time),
        None => with_first,
    }
}

/// The last write of an atom by a moment among the events of steps, if there is one.
fn with_steps(steps: &[BoxStep<'_>], atom: AtomId, time: u128) -> Option<Write>
    ensures { IsLastWrite (points_of_owners (step_owners 1 (steps_of steps.now))) atom.0 time result }
{
    let mut last = None;
    for step in steps {
        last = with_step(last, step, atom, time);
    }
    last
}

/// The last write of an atom by a moment, with these events of the environment.
fn with_timed(
    first: Option<Write>,
    timed: &[BoxTimed<'_>],
    atom: AtomId,
    time: u128,
) -> Option<Write>
    ensures { (seen : List Point) (number : ℕ) → IsLastWrite seen atom.0 time first → IsLastWrite (seen ++ points_of_owners (timed_owners number (timed_of timed.now))) atom.0 time result }
{
    let mut last = first;
    for event in timed {
        last = with_event(last, event.high, &event.event, atom, time);
    }
    last
}

/// What is certain of an atom at a moment, where no opposite writers of it may meet: the way of the
/// writer whose window ends last by then, or else how it is at first.
pub fn certain_value(boxed: &BoxRun<'_>, atom: AtomId, time: u128) -> bool
    requires atom { atom.0 < length boxed.now.initial }
    requires clash { NoneClash (windows_in_run boxed.now) atom.0 }
    ensures certain { result ≡ certain_value_lem (plain_box boxed.now) atom.0 time }
    ensures last { (p : Point) → IsLastWriter (windows_in_run boxed.now) atom.0 time p → result ≡ has p.event.adds atom.0 }
    ensures initial { ((p : Point) → Contains (windows_in_run boxed.now).points p → sets_lem p atom.0 ≡ true → p.high ≤ time → ⊥) → result ≡ state_of_row boxed.now.initial atom.0 }
{
    let of_steps = with_steps(boxed.steps.as_slice(), atom, time);
    match with_timed(of_steps, boxed.timed.as_slice(), atom, time) {
        Some(write) => write.adds,
        None => boxed.initial.get(atom),
    }
}
