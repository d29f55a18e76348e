//! Two steps of one action that may run at one moment.

ghost use Rattle.std.specs.Prelude.{◌≡◌, nat_le, if◌then◌else◌, max, true, MatchOption};
ghost use Rattle.std.specs.List.{list_all};
ghost use Rattle.stp_window.specs.Views.{span_of, spans_of};
ghost use Rattle.stp_strength.specs.Failures.{all_pairs_pass, stay_apart as stay_apart_lem};
ghost use Rattle.stp_check.specs.Pairs.{IsNotApartFrom, AreNotApart};

use stp_base::StepId;
use stp_strength::stay_apart;
use stp_window::Lasting;

/// A step that may still run when another one of its action starts, and when that is.
#[derive(Clone, Copy)]
pub(crate) struct Overlap {
    pub(crate) step: StepId,
    pub(crate) time: u128,
}

/// The first of these steps that is of the same action as one and may run at one moment with it.
fn first_with<'s, 'a>(one: &Lasting<'a>, spans: &'s [Lasting<'a>]) -> Option<&'s Lasting<'a>>
    ensures { MatchOption result
        (list_all (stay_apart_lem (span_of one.now)) (spans_of spans.now) ≡ true)
        (λ other. IsNotApartFrom (span_of one.now) (spans_of spans.now) (span_of other.now)) }
{
    for other in spans {
        if !stay_apart(one, other) {
            return Some(other);
        }
    }
    None
}

/// The one of two steps that starts first, or the one where both start at once, and when the other starts.
fn overlap_of(one: &Lasting<'_>, other: &Lasting<'_>) -> Overlap
    ensures step { result.step.0 ≡ (if nat_le one.now.owner.start other.now.owner.start then one.now.owner.number else other.now.owner.number) }
    ensures time { result.time ≡ max one.now.owner.start other.now.owner.start }
{
    if one.owner.start <= other.owner.start {
        Overlap {
            step: StepId(one.owner.number),
            time: other.owner.start,
        }
    } else {
        Overlap {
            step: StepId(other.owner.number),
            time: one.owner.start,
        }
    }
}

/// The overlap of the first two of these steps that are of one action and may run at one moment.
pub(crate) fn first_overlap(spans: &[Lasting<'_>]) -> Option<Overlap>
    ensures { MatchOption result
        (all_pairs_pass stay_apart_lem (spans_of spans.now) ≡ true)
        (λ found. AreNotApart (spans_of spans.now) found.step.0 found.time) }
{
    for one in spans {
        if let Some(other) = first_with(one, spans) {
            return Some(overlap_of(one, other));
        }
    }
    None
}
