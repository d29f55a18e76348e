//! Which steps of one action stay apart, and which events whose windows meet do not interfere.

ghost use Rattle.std.specs.Prelude.{◌≡◌};
ghost use Rattle.std.specs.List.{list_all};
ghost use Rattle.stp_strength.specs.Failures.{all_pairs_pass, stay_apart as stay_apart_lem, stay_calm as stay_calm_lem};
ghost use Rattle.stp_window.specs.Views.{point_of, points_of, span_of, spans_of};

use stp_cond::interfere;
use stp_window::windows::windows_meet;
use stp_window::{Lasting, Window};

/// Whether two steps, if they are of one action, never run at one moment.
pub fn stay_apart(one: &Lasting<'_>, other: &Lasting<'_>) -> bool
    ensures { result ≡ stay_apart_lem (span_of one.now) (span_of other.now) }
{
    !(one.owner.number < other.owner.number && one.inside.key == other.inside.key)
        || one.owner.high < other.owner.start
        || other.owner.high < one.owner.start
}

fn apart_from(one: &Lasting<'_>, steps: &[Lasting<'_>]) -> bool
    ensures { result ≡ list_all (stay_apart_lem (span_of one.now)) (spans_of steps.now) }
{
    for other in steps {
        if !stay_apart(one, other) {
            return false;
        }
    }
    true
}

/// Whether no two steps of one action ever run at one moment.
pub fn all_apart(steps: &[Lasting<'_>]) -> bool
    ensures { result ≡ all_pairs_pass stay_apart_lem (spans_of steps.now) }
{
    for one in steps {
        if !apart_from(one, steps) {
            return false;
        }
    }
    true
}

/// Whether two events of different steps, if their windows have a common moment, do not interfere.
pub fn stay_calm(one: &Window<'_>, other: &Window<'_>) -> bool
    ensures { result ≡ stay_calm_lem (point_of one.now) (point_of other.now) }
{
    !(one.step < other.step && windows_meet(one, other)) || !interfere(&one.event, &other.event)
}

fn calm_with(one: &Window<'_>, windows: &[Window<'_>]) -> bool
    ensures { result ≡ list_all (stay_calm_lem (point_of one.now)) (points_of windows.now) }
{
    for other in windows {
        if !stay_calm(one, other) {
            return false;
        }
    }
    true
}

/// Whether no two events of different steps whose windows have a common moment interfere.
pub fn all_calm(windows: &[Window<'_>]) -> bool
    ensures { result ≡ all_pairs_pass stay_calm_lem (points_of windows.now) }
{
    for one in windows {
        if !calm_with(one, windows) {
            return false;
        }
    }
    true
}
