//! One owner of a box, whose end is narrowed until the box fails at that end alone.

ghost use Rattle.std.specs.Prelude.{◌≡◌, ◌+◌, ◌-◌, ◌<◌, ◌≤◌, IfOk};
ghost use Rattle.stp_happen.specs.LeastFailure.{IsFailure};
ghost use Rattle.stp_happen.specs.OwnedViews.{plain_owned};
ghost use Rattle.stp_least.specs.Places.{Fits, IsFailing, IsPlace, box_at};
ghost use Rattle.stp_least.specs.Searching.{KeepsLeastFailure};

use std::alloc::Global;
use stp_base::{List, Memory};
use stp_check::{Verdict, strong_by_owners};
use stp_happen::{OwnedBox, Owner, with_bounds};

/// A box, an uncertain owner of it, before which each owner has one end, and how many of those are uncertain.
#[derive(Clone, Copy)]
pub struct Place<'b, 'a> {
    pub boxed: &'b OwnedBox<'a>,
    pub owner: Owner<'a>,
    pub position: usize,
}

/// Bounds for the owner at a place, and durations at which the box fails with them.
#[derive(Drop)]
pub struct Failing {
    pub low: u128,
    pub high: u128,
    pub durations: List<u128>,
}

/// When an owner ends that lasts so long.
fn end_at(owner: &Owner<'_>, duration: u128) -> u128
    requires { owner.now.start + duration ≤ owner.now.high }
    ensures { result ≡ owner.now.start + duration }
{
    let high = owner.high;
    let end = owner.start + duration;
    prove!(end <= high);
    end
}

/// The same bounds, the high lowered to the owner's end at these durations.
fn lowered(place: Place<'_, '_>, low: u128, high: u128, durations: List<u128>) -> Failing
    requires place { IsPlace place }
    requires fits { Fits place low high }
    requires failure { IsFailure (box_at place low high) durations }
    ensures failing { IsFailing place.entry result }
    ensures least { KeepsLeastFailure (box_at place.entry low high) (box_at place.entry result.low result.high) }
    ensures low { result.low ≡ low }
    ensures high { result.high ≤ high }
{
    let duration = durations.as_slice()[place.position];
    Failing {
        low,
        high: end_at(&place.owner, duration),
        durations,
    }
}

/// The part of the bounds up to a middle if the box fails with that, and else the part after it.
fn halved(
    alloc: Global,
    place: Place<'_, '_>,
    failing: Failing,
    middle: u128,
) -> Result<Failing, Memory>
    requires place { IsPlace place }
    requires failing { IsFailing place failing }
    requires low { failing.low ≤ middle }
    requires high { middle < failing.high }
    ensures failing { IfOk result (IsFailing place.entry) }
    ensures least { IfOk result (λ r. KeepsLeastFailure (box_at place.entry failing.low failing.high) (box_at place.entry r.low r.high)) }
    ensures less { IfOk result (λ r. r.high - r.low < failing.high - failing.low) }
{
    let low = failing.low;
    let high = failing.high;
    let boxed = with_bounds(alloc, place.boxed, place.owner.number, low, middle)?;
    match strong_by_owners(alloc, &boxed)? {
        Verdict::Strong => Ok(Failing {
            low: middle + 1,
            high,
            durations: failing.durations,
        }),
        Verdict::Weak(found) => Ok(lowered(place, low, middle, found)),
    }
}

/// The moment before the high, or the one halfway from the low to it.
fn middle_of(low: u128, high: u128, near: bool) -> u128
    requires { low < high }
    ensures low { low ≤ result }
    ensures high { result < high }
{
    if near {
        high - 1
    } else {
        low + (high - low) / 2
    }
}

/// The one end that the owner has at the least failure.
///
/// Mostly a failure has the end already, and one test of one moment less tells so; halves take the rest.
pub fn fixed_at(
    alloc: Global,
    place: Place<'_, '_>,
    durations: List<u128>,
) -> Result<Failing, Memory>
    requires place { IsPlace place }
    requires failure { IsFailure (plain_owned place.boxed.now) durations }
    ensures failing { IfOk result (IsFailing place.entry) }
    ensures least { IfOk result (λ r. KeepsLeastFailure (plain_owned place.entry.boxed.now) (box_at place.entry r.low r.high)) }
    ensures fixed { IfOk result (λ r. r.low ≡ r.high) }
{
    let mut failing = lowered(place, place.owner.low, place.owner.high, durations);
    let mut near = true;
    while failing.low < failing.high {
        let middle = middle_of(failing.low, failing.high, near);
        failing = halved(alloc, place, failing, middle)?;
        near = false;
    }
    Ok(failing)
}
