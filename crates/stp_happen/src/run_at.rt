//! The run of a box under chosen durations.

ghost use Rattle.std.specs.Prelude.{◌≡◌, ℕ, ◌≤◌, ◌↔◌, ◌++◌, All, IfOk, OnOk, IsPermutation, IsSortedByKey};
ghost use Rattle.stp_happen.specs.Boxes.{IsVector, IsInInterval, end_of, entries_of_owner, entries_under, rest_of, run_under, spans_of_owner, spans_under};
ghost use Rattle.stp_happen.specs.BoxViews.{plain_box};
ghost use Rattle.stp_happen.specs.Faults.{IsFirstFault};
ghost use Rattle.stp_happen.specs.Orders.{IsInSomeOrder};
ghost use Rattle.stp_happen.specs.OwnedViews.{plain_owned};
ghost use Rattle.stp_happen.specs.OwnerViews.{plain_owner, plain_owners};
ghost use Rattle.stp_happen.specs.Plain.{Executes};
ghost use Rattle.stp_happen.specs.Runs.{plain_run};
ghost use Rattle.stp_happen.specs.Sound.{IsEntryInRange, IsSpanInRange, last_moment};
ghost use Rattle.stp_happen.specs.SoundOwned.{IsOwner};
ghost use Rattle.stp_happen.specs.Times.{by_time_and_step, time_and_step};
ghost use Rattle.stp_happen.specs.Views.{entries_of, spans_of};

use crate::boxes::BoxRun;
use crate::fault::Fault;
use crate::owners::{OwnedBox, Owner};
use crate::owning::by_owners;
use crate::run::{Entry, Run, Span};
use std::alloc::Global;
use stp_base::{List, Memory, StepId};

/// When an owner ends, the first of the durations being its own if it is uncertain.
fn end_at(owner: &Owner<'_>, durations: &[u128]) -> u128
    requires { IsInInterval (plain_owner owner.now) durations.now }
    ensures { result ≡ end_of (plain_owner owner.now) durations.now }
{
    let high = owner.high;
    if owner.uncertain {
        owner.start + durations[0]
    } else {
        high
    }
}

/// The durations of the owners after this one.
fn rest_at<'v>(owner: &Owner<'_>, durations: &'v [u128]) -> &'v [u128]
    requires { IsInInterval (plain_owner owner.now) durations.now }
    ensures { result.now ≡ rest_of (plain_owner owner.now) durations.now }
{
    if owner.uncertain {
        &durations[1..]
    } else {
        durations
    }
}

/// Puts the entries of an owner that ends then at the end of a list.
fn push_entries<'a>(
    entries: &mut Vec<Entry<'a>>,
    owner: &Owner<'a>,
    end: u128,
) -> Result<(), Memory>
    ensures ok { OnOk result (entries_of entries.new.items ≡ entries_of entries.old.items ++ entries_of_owner (plain_owner owner.now) end) }
    ensures in_range { OnOk result ((grid n : ℕ) → IsOwner grid n owner.now → owner.now.start ≤ last_moment grid → end ≤ last_moment grid → All (IsEntryInRange grid n) entries.old.items → All (IsEntryInRange grid n) entries.new.items) }
{
    let step = StepId(owner.number);
    if let Some(event) = owner.first {
        entries.push(Entry {
            time: owner.start,
            step,
            event,
        })?;
    }
    if let Some(event) = owner.last {
        entries.push(Entry {
            time: end,
            step,
            event,
        })?;
    }
    Ok(())
}

/// The entries of the owners in their order.
fn entries_at<'a>(
    alloc: Global,
    owners: &[Owner<'a>],
    vector: &[u128],
) -> Result<Vec<Entry<'a>>, Memory>
    requires { IsVector (plain_owners owners.now) vector.now }
    ensures entries { IfOk result (λ r. entries_of r.items ≡ entries_under (plain_owners owners.now) vector.now) }
    ensures in_range { IfOk result (λ r. (grid n : ℕ) → All (IsOwner grid n) owners.now → All (IsEntryInRange grid n) r.items) }
{
    let mut entries = Vec::new(alloc);
    let mut durations = vector;
    for owner in owners {
        push_entries(&mut entries, owner, end_at(owner, durations))?;
        durations = rest_at(owner, durations);
    }
    Ok(entries)
}

/// Puts the span of an owner that ends then, if it has one, at the end of a list.
fn push_spans<'a>(spans: &mut List<Span<'a>>, owner: &Owner<'a>, end: u128) -> Result<(), Memory>
    ensures ok { OnOk result (spans_of spans.new ≡ spans_of spans.old ++ spans_of_owner (plain_owner owner.now) end) }
    ensures in_range { OnOk result ((grid n : ℕ) → IsOwner grid n owner.now → owner.now.start ≤ end → end ≤ last_moment grid → All (IsSpanInRange grid n) spans.old → All (IsSpanInRange grid n) spans.new) }
{
    if let Some(inside) = owner.inside {
        spans.push(Span {
            from: owner.start,
            to: end,
            step: StepId(owner.number),
            key: inside.key,
            over: inside.over,
        })?;
    }
    Ok(())
}

/// The spans of the owners in their order.
fn spans_at<'a>(
    alloc: Global,
    owners: &[Owner<'a>],
    vector: &[u128],
) -> Result<List<Span<'a>>, Memory>
    requires { IsVector (plain_owners owners.now) vector.now }
    ensures spans { IfOk result (λ r. spans_of r ≡ spans_under (plain_owners owners.now) vector.now) }
    ensures in_range { IfOk result (λ r. (grid n : ℕ) → All (IsOwner grid n) owners.now → All (IsSpanInRange grid n) r) }
{
    let mut spans = List::new(alloc);
    let mut durations = vector;
    for owner in owners {
        push_spans(&mut spans, owner, end_at(owner, durations))?;
        durations = rest_at(owner, durations);
    }
    Ok(spans)
}

/// The entries by time and then by step.
fn in_order<'a>(alloc: Global, entries: Vec<Entry<'a>>) -> Result<List<Entry<'a>>, Memory>
    ensures same { IfOk result (λ r. IsPermutation entries.entry.items r) }
    ensures sorted { IfOk result (λ r. IsSortedByKey time_and_step by_time_and_step r) }
{
    let mut entries = entries;
    entries.sort_by_key(|e| (e.time, e.step.0))?;
    let mut list = List::new(alloc);
    for entry in &entries {
        list.push(*entry)?;
    }
    Ok(list)
}

/// The run of a box of owners under durations, one for each uncertain owner, in order.
pub fn run_by_owners<'a>(
    alloc: Global,
    boxed: &OwnedBox<'a>,
    vector: &[u128],
) -> Result<Run<'a>, Memory>
    requires { IsVector (plain_owned boxed.now).owners vector.now }
    ensures run { IfOk result (λ r. IsInSomeOrder (plain_run r) (run_under (plain_owned boxed.now) vector.now)) }
    ensures grid { IfOk result (λ r. r.grid ≡ boxed.now.grid) }
    ensures executes { IfOk result (λ r. Executes (plain_run r) ↔ Executes (run_under (plain_owned boxed.now) vector.now)) }
    ensures first_fault { IfOk result (λ r. (f : Fault) → IsFirstFault (plain_run r) f ↔ IsFirstFault (run_under (plain_owned boxed.now) vector.now) f) }
{
    let owners = boxed.owners.as_slice();
    let spans = spans_at(alloc, owners, vector)?;
    let entries = in_order(alloc, entries_at(alloc, owners, vector)?)?;
    let initial = boxed.initial.copy(alloc)?;
    Ok(Run {
        grid: boxed.grid,
        entries,
        spans,
        initial,
        goal: boxed.goal,
    })
}

/// The run of a box under durations, one for each uncertain step, in order, and then a moment for each event
/// of the environment whose moment is chosen.
pub fn run_at<'a>(alloc: Global, boxed: &BoxRun<'a>, vector: &[u128]) -> Result<Run<'a>, Memory>
    requires { IsVector (plain_box boxed.now).owners vector.now }
    ensures run { IfOk result (λ r. IsInSomeOrder (plain_run r) (run_under (plain_box boxed.now) vector.now)) }
    ensures grid { IfOk result (λ r. r.grid ≡ boxed.now.grid) }
    ensures executes { IfOk result (λ r. Executes (plain_run r) ↔ Executes (run_under (plain_box boxed.now) vector.now)) }
    ensures first_fault { IfOk result (λ r. (f : Fault) → IsFirstFault (plain_run r) f ↔ IsFirstFault (run_under (plain_box boxed.now) vector.now) f) }
{
    let owned = by_owners(alloc, boxed)?;
    run_by_owners(alloc, &owned, vector)
}
