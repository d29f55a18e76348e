//! Faults of two steps: spans of one action that meet, and events of one moment that interfere.

ghost use Rattle.std.specs.Prelude.{◌≡◌};
ghost use Rattle.std.specs.List.{filter_map};
ghost use Rattle.stp_happen.specs.Faults.{overlap_of, interference_of, overlaps, interferences};
ghost use Rattle.stp_happen.specs.Firsts.{first_from};
ghost use Rattle.stp_happen.specs.Views.{entry_of, span_of, entries_of, spans_of};

use crate::fault::Fault;
use crate::run::{Entry, Span};
use crate::sooner::sooner;
use stp_cond::interfere;

/// The fault of two spans of one action that meet.
fn overlap(one: &Span<'_>, other: &Span<'_>) -> Option<Fault>
    ensures { result ≡ overlap_of (span_of one.now) (span_of other.now) }
{
    if one.step.0 < other.step.0
        && one.key == other.key
        && one.from <= other.to
        && other.from <= one.to
    {
        return Some(Fault::Overlap {
            time: one.from.max(other.from),
            first: one.step,
            second: other.step,
        });
    }
    None
}

/// The first of a fault at hand and of those of one span with each of these.
fn first_overlap_with(best: Option<Fault>, one: &Span<'_>, spans: &[Span<'_>]) -> Option<Fault>
    ensures { result ≡ first_from best (filter_map (overlap_of (span_of one.now)) (spans_of spans.now)) }
{
    let mut best = best;
    for other in spans {
        best = sooner(best, overlap(one, other));
    }
    best
}

/// The first of a fault at hand and of those of each two spans.
pub(crate) fn first_overlap(best: Option<Fault>, spans: &[Span<'_>]) -> Option<Fault>
    ensures { result ≡ first_from best (overlaps (spans_of spans.now)) }
{
    let mut best = best;
    for one in spans {
        best = first_overlap_with(best, one, spans);
    }
    best
}

/// The fault of two events of one moment that interfere.
fn interference(one: &Entry<'_>, other: &Entry<'_>) -> Option<Fault>
    ensures { result ≡ interference_of (entry_of one.now) (entry_of other.now) }
{
    if one.step.0 < other.step.0 && one.time == other.time && interfere(&one.event, &other.event) {
        return Some(Fault::Interference {
            time: one.time,
            first: one.step,
            second: other.step,
        });
    }
    None
}

/// The first of a fault at hand and of those of one entry with each of these.
fn first_interference_with(
    best: Option<Fault>,
    one: &Entry<'_>,
    entries: &[Entry<'_>],
) -> Option<Fault>
    ensures { result ≡ first_from best (filter_map (interference_of (entry_of one.now)) (entries_of entries.now)) }
{
    let mut best = best;
    for other in entries {
        best = sooner(best, interference(one, other));
    }
    best
}

/// The first of a fault at hand and of those of each two entries.
pub(crate) fn first_interference(best: Option<Fault>, entries: &[Entry<'_>]) -> Option<Fault>
    ensures { result ≡ first_from best (interferences (entries_of entries.now)) }
{
    let mut best = best;
    for one in entries {
        best = first_interference_with(best, one, entries);
    }
    best
}
