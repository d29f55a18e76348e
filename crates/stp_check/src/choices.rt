//! Durations of a box at which some steps end after a moment, or near to it, and the others as soon as they can.

ghost use Rattle.std.specs.Prelude.{◌≡◌, ◌+◌, ◌≤◌, ◌++◌, ◌∷◌, [], ◌==◌, max, min, All, IfOk, OnOk};
ghost use Rattle.std.specs.List.{list_any};
ghost use Rattle.stp_happen.specs.Boxes.{IsVector};
ghost use Rattle.stp_happen.specs.OwnedViews.{plain_owned};
ghost use Rattle.stp_happen.specs.OwnerViews.{plain_owner, plain_owners};
ghost use Rattle.stp_window.specs.OwnerWindows.{end_point};
ghost use Rattle.stp_strength.specs.Vectors.{vector_from, vector_of};
ghost use Rattle.stp_check.specs.Choices.{near_to, moment_of, GoesUp};
ghost use Rattle.stp_check.specs.Late.{numbers_of};

use std::alloc::Global;
use stp_base::{List, Memory, StepId};
use stp_happen::{OwnedBox, Owner};

/// When the uncertain steps end.
#[derive(Clone, Copy)]
pub enum Choice<'c> {
    /// These as soon as they can after a moment, or as late as they can, and the others as soon as they can.
    After(&'c [StepId], u128),
    /// These as near to a moment as they can, and the others as soon as they can.
    Near(&'c [StepId], u128),
}

/// Whether a step is among these.
fn is_among(steps: &[StepId], number: u32) -> bool
    ensures { result ≡ list_any (λ s. s.0 == number) steps.now }
{
    steps.iter().any(|step| step.0 == number)
}

/// The moment of a window that is as near to a time as it can be.
fn near(low: u128, high: u128, time: u128) -> u128
    ensures { result ≡ max low (min high time) }
{
    low.max(high.min(time))
}

/// The first moment of a window after a time, or the window's end if it has none.
fn after(low: u128, high: u128, time: u128) -> u128
    ensures { result ≡ max low (min high (time + 1)) }
{
    if time < high {
        low.max(time + 1)
    } else {
        low.max(high)
    }
}

/// When an owner ends that ends as soon as it can after a moment if it is among these, and else as soon as it can.
fn end_after(steps: &[StepId], time: u128, owner: &Owner<'_>) -> u128
    ensures moment { result ≡ near_to (numbers_of steps.now) (time + 1) (end_point (plain_owner owner.now)) }
    ensures within { owner.now.low ≤ result }
{
    if is_among(steps, owner.number) {
        after(owner.low, owner.high, time)
    } else {
        owner.low
    }
}

/// When an owner ends that is as near to a moment as it can be if it is among these, and else as soon as it can be.
fn near_end(steps: &[StepId], time: u128, owner: &Owner<'_>) -> u128
    ensures moment { result ≡ near_to (numbers_of steps.now) time (end_point (plain_owner owner.now)) }
    ensures within { owner.now.low ≤ result }
{
    if is_among(steps, owner.number) {
        near(owner.low, owner.high, time)
    } else {
        owner.low
    }
}

/// When an owner ends.
fn end_at(choice: Choice<'_>, owner: &Owner<'_>) -> u128
    ensures moment { result ≡ moment_of choice.entry (end_point (plain_owner owner.now)) }
    ensures within { owner.now.low ≤ result }
{
    match choice {
        Choice::After(steps, time) => end_after(steps, time, owner),
        Choice::Near(steps, time) => near_end(steps, time, owner),
    }
}

/// Puts the duration of an owner at the end of a list if the owner is uncertain.
fn push_duration(
    durations: &mut List<u128>,
    choice: Choice<'_>,
    owner: &Owner<'_>,
) -> Result<(), Memory>
    requires { GoesUp owner.now }
    ensures { OnOk result (durations.new ≡ durations.old ++ vector_from (moment_of choice.entry) (plain_owner owner.now ∷ [])) }
{
    if owner.uncertain {
        durations.push(end_at(choice, owner) - owner.start)?;
    }
    Ok(())
}

/// The durations of owners.
fn durations_at(
    alloc: Global,
    owners: &[Owner<'_>],
    choice: Choice<'_>,
) -> Result<List<u128>, Memory>
    requires { All GoesUp owners.now }
    ensures { IfOk result (λ r. r ≡ vector_from (moment_of choice.entry) (plain_owners owners.now)) }
{
    let mut durations = List::new(alloc);
    for owner in owners {
        push_duration(&mut durations, choice, owner)?;
    }
    Ok(durations)
}

/// The durations at which the uncertain owners of a box end as chosen, in order.
pub fn durations(
    alloc: Global,
    boxed: &OwnedBox<'_>,
    choice: Choice<'_>,
) -> Result<List<u128>, Memory>
    ensures chosen { IfOk result (λ r. r ≡ vector_of (plain_owned boxed.now) (moment_of choice.entry)) }
    ensures vector { IfOk result (λ r. IsVector (plain_owned boxed.now).owners r) }
{
    durations_at(alloc, boxed.owners.as_slice(), choice)
}
