//! The owners of a box's steps and events.

ghost use Rattle.std.specs.Prelude.{◌≡◌, ℕ, ◌+◌, ◌≤◌, ◌++◌, length, All, IfOk, OnOk};
ghost use Rattle.stp_base.specs.declared.limits.TheConstants.{MAX_EVENTS, MAX_STEPS, MAX_TIMED};
ghost use Rattle.stp_happen.specs.BoxViews.{plain_box};
ghost use Rattle.stp_happen.specs.OwnedViews.{plain_owned};
ghost use Rattle.stp_happen.specs.Owners.{number_after, step_owner, step_owners, timed_owner, timed_owners};
ghost use Rattle.stp_happen.specs.OwnerViews.{plain_owner, plain_owners};
ghost use Rattle.stp_happen.specs.SoundBox.{IsBoxStep, IsBoxTimed};
ghost use Rattle.stp_happen.specs.SoundOwned.{IsOwner};
ghost use Rattle.stp_happen.specs.StepViews.{plain_timed, step_of, steps_of, timed_of};

use crate::boxes::{BoxRun, BoxStep, BoxTimed};
use crate::owners::{Inside, OwnedBox, Owner};
use std::alloc::Global;
use stp_base::{List, Memory};

/// The owner of a step's events.
fn step_owner<'a>(number: u32, step: &BoxStep<'a>) -> Owner<'a>
    ensures same { plain_owner result ≡ step_owner number (step_of step.now) }
    ensures in_range { (grid n : ℕ) → IsBoxStep grid n step.now → IsOwner grid n result }
{
    Owner {
        number,
        start: step.start,
        low: step.low,
        high: step.high,
        uncertain: step.uncertain,
        first: Some(step.first),
        last: step.last,
        inside: Some(Inside {
            key: step.key,
            over: step.over,
        }),
    }
}

/// The owner of an event of the environment, which has the next number if its moment is chosen.
fn timed_owner<'a>(next: u32, timed: &BoxTimed<'a>) -> Owner<'a>
    ensures same { plain_owner result ≡ timed_owner next (plain_timed timed.now) }
    ensures in_range { (grid n : ℕ) → IsBoxTimed grid n timed.now → IsOwner grid n result }
{
    Owner {
        number: if timed.uncertain { next } else { 0 },
        start: 0,
        low: timed.low,
        high: timed.high,
        uncertain: timed.uncertain,
        first: None,
        last: Some(timed.event),
        inside: None,
    }
}

/// The next number after an event.
fn number_past(next: u32, timed: &BoxTimed<'_>) -> u32
    requires { next ≤ 700 }
    ensures same { result ≡ number_after next (plain_timed timed.now) }
    ensures up { result ≤ next + 1 }
{
    if timed.uncertain { next + 1 } else { next }
}

/// The owners of these steps, numbered from 1 on.
fn owners_of_steps<'a>(alloc: Global, steps: &[BoxStep<'a>]) -> Result<List<Owner<'a>>, Memory>
    requires { length steps.now ≤ MAX_STEPS }
    ensures same { IfOk result (λ r. plain_owners r ≡ step_owners 1 (steps_of steps.now)) }
    ensures in_range { IfOk result (λ r. (grid n : ℕ) → All (IsBoxStep grid n) steps.now → All (IsOwner grid n) r) }
{
    let mut owners = List::new(alloc);
    let mut number = 0u32;
    for step in steps {
        number += 1;
        owners.push(step_owner(number, step))?;
    }
    Ok(owners)
}

/// Puts the owners of these events at the end of a list.
fn push_timed<'a>(
    owners: &mut List<Owner<'a>>,
    timed: &[BoxTimed<'a>],
    first: u32,
) -> Result<(), Memory>
    requires first { first ≤ 501 }
    requires few { length timed.now ≤ MAX_TIMED + MAX_EVENTS }
    ensures same { OnOk result (plain_owners owners.new ≡ plain_owners owners.old ++ timed_owners first (timed_of timed.now)) }
    ensures in_range { OnOk result ((grid n : ℕ) → All (IsOwner grid n) owners.old → All (IsBoxTimed grid n) timed.now → All (IsOwner grid n) owners.new) }
{
    let mut next = first;
    for event in timed {
        owners.push(timed_owner(next, event))?;
        next = number_past(next, event);
    }
    Ok(())
}

/// The same box with its steps and events as owners.
pub fn by_owners<'a>(alloc: Global, boxed: &BoxRun<'a>) -> Result<OwnedBox<'a>, Memory>
    ensures same { IfOk result (λ r. plain_owned r ≡ plain_box boxed.now) }
    ensures grid { IfOk result (λ r. r.grid ≡ boxed.now.grid) }
{
    let steps = boxed.steps.as_slice();
    let mut owners = owners_of_steps(alloc, steps)?;
    push_timed(&mut owners, boxed.timed.as_slice(), steps.len() as u32 + 1)?;
    let initial = boxed.initial.copy(alloc)?;
    Ok(OwnedBox {
        grid: boxed.grid,
        owners,
        initial,
        goal: boxed.goal,
    })
}
