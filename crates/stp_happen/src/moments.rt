//! A run's moments one after another, in a row of truth values that is carried along.

ghost use Rattle.std.specs.Prelude.{◌≡◌, ℕ, ◌<◌, ◌≤◌, true, false, if◌then◌else◌, length, slice_index_or, All};
ghost use Rattle.std.specs.List.{filter_map, list_any};
ghost use Rattle.std.specs.List.Sorted.{IsNonDecreasingBy};
ghost use Rattle.stp_cond.specs.Atoms.{has};
ghost use Rattle.stp_cond.specs.Events.{IsEventInRange};
ghost use Rattle.stp_cond.specs.Truth.{is_below, state_of_row};
ghost use Rattle.stp_happen.specs.Faults.{condition_in, over_all_in, interferences};
ghost use Rattle.stp_happen.specs.Firsts.{changed, first_from};
ghost use Rattle.stp_happen.specs.Views.{entry_of, span_of, entries_of, spans_of};

use crate::fault::Fault;
use crate::pairs::first_interference;
use crate::run::{Entry, Span};
use crate::sooner::sooner;
use stp_base::StateRow;
use stp_cond::holds;
use stp_cond::rows::set_all;

/// The fault of an event that does not find what it needs in a row.
fn condition(entry: &Entry<'_>, row: &StateRow) -> Option<Fault>
    requires { is_below (length row.now) entry.now.event.cond.now ≡ true }
    ensures { result ≡ condition_in (state_of_row row.now) (entry_of entry.now) }
{
    if holds(entry.event.cond, row) {
        return None;
    }
    Some(Fault::Condition {
        time: entry.time,
        step: entry.step,
    })
}

/// The first of a fault at hand and of those of events that do not find what they need in a row.
fn first_condition(best: Option<Fault>, moment: &[Entry<'_>], row: &StateRow) -> Option<Fault>
    requires { All (λ e. IsEventInRange (length row.now) e.event) moment.now }
    ensures { result ≡ first_from best (filter_map (condition_in (state_of_row row.now)) (entries_of moment.now)) }
{
    let mut best = best;
    for entry in moment {
        best = sooner(best, condition(entry, row));
    }
    best
}

/// The fault of a span that holds a moment, where a row, which stands after it, does not have what has
/// to hold.
fn over_all(time: u128, span: &Span<'_>, row: &StateRow) -> Option<Fault>
    requires { is_below (length row.now) span.now.over.now ≡ true }
    ensures { result ≡ over_all_in (state_of_row row.now) time (span_of span.now) }
{
    if span.from <= time && time < span.to && !holds(span.over, row) {
        return Some(Fault::OverAll {
            time,
            step: span.step,
        });
    }
    None
}

/// The first of a fault at hand and of those of these spans after a moment.
fn first_over_all(
    best: Option<Fault>,
    time: u128,
    spans: &[Span<'_>],
    row: &StateRow,
) -> Option<Fault>
    requires { All (λ s. is_below (length row.now) s.over.now ≡ true) spans.now }
    ensures { result ≡ first_from best (filter_map (over_all_in (state_of_row row.now) time) (spans_of spans.now)) }
{
    let mut best = best;
    for span in spans {
        best = sooner(best, over_all(time, span, row));
    }
    best
}

/// Makes false what any of these entries deletes.
fn delete_all(row: &mut StateRow, moment: &[Entry<'_>])
    requires { All (λ e. IsEventInRange (length row.old) e.event) moment.now }
    ensures len { length row.new ≡ length row.old }
    ensures state { (a : ℕ) → state_of_row row.new a
        ≡ (if list_any (λ e. has e.event.dels a) (entries_of moment.now) then false else state_of_row row.old a) }
{
    for entry in moment {
        set_all(row, entry.event.dels, false);
    }
}

/// Makes true what any of these entries adds.
fn add_all(row: &mut StateRow, moment: &[Entry<'_>])
    requires { All (λ e. IsEventInRange (length row.old) e.event) moment.now }
    ensures len { length row.new ≡ length row.old }
    ensures state { (a : ℕ) → state_of_row row.new a
        ≡ (if list_any (λ e. has e.event.adds a) (entries_of moment.now) then true else state_of_row row.old a) }
{
    for entry in moment {
        set_all(row, entry.event.adds, true);
    }
}

/// The place where a moment that begins at a place ends.
pub(crate) fn moment_end(entries: &[Entry<'_>], start: usize) -> usize
    requires within { start < length entries.now }
    requires ordered { IsNonDecreasingBy (λ e. e.time) entries.now }
    ensures within { (start < result) × (result ≤ length entries.now) }
    ensures same { (k : ℕ) (d : Entry) → start ≤ k → k < result → (slice_index_or entries.now k d).time ≡ (slice_index_or entries.now start d).time }
    ensures later { (k : ℕ) (d : Entry) → result ≤ k → k < length entries.now → (slice_index_or entries.now start d).time < (slice_index_or entries.now k d).time }
{
    let time = entries[start].time;
    let mut end = start + 1;
    while end < entries.len() && entries[end].time == time {
        end += 1;
    }
    end
}

/// The first faults of three kinds so far.
#[derive(Clone, Copy)]
pub(crate) struct Firsts {
    pub(crate) interference: Option<Fault>,
    pub(crate) condition: Option<Fault>,
    pub(crate) over_all: Option<Fault>,
}

/// Takes a row past one moment, and the first faults with it.
pub(crate) fn take_moment(
    firsts: Firsts,
    time: u128,
    moment: &[Entry<'_>],
    spans: &[Span<'_>],
    row: &mut StateRow,
) -> Firsts
    requires entries { All (λ e. IsEventInRange (length row.old) e.event) moment.now }
    requires spans { All (λ s. is_below (length row.old) s.over.now ≡ true) spans.now }
    ensures len { length row.new ≡ length row.old }
    ensures state { (a : ℕ) → state_of_row row.new a ≡ changed (entries_of moment.now) (state_of_row row.old) a }
    ensures interference { result.interference ≡ first_from firsts.interference (interferences (entries_of moment.now)) }
    ensures condition { result.condition ≡ first_from firsts.condition (filter_map (condition_in (state_of_row row.old)) (entries_of moment.now)) }
    ensures over_all { result.over_all ≡ first_from firsts.over_all (filter_map (over_all_in (state_of_row row.new) time) (spans_of spans.now)) }
{
    let interference = first_interference(firsts.interference, moment);
    let condition = first_condition(firsts.condition, moment, row);
    delete_all(row, moment);
    add_all(row, moment);
    let over_all = first_over_all(firsts.over_all, time, spans, row);
    Firsts {
        interference,
        condition,
        over_all,
    }
}
