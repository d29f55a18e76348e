//! Which ends would change an atom of a formula.

ghost use Rattle.std.specs.Prelude.{◌≡◌, ◌<◌, true, not, length, drop, map, Contains, IfSome, MatchOption};
ghost use Rattle.std.specs.List.{list_all};
ghost use Rattle.stp_cond.specs.Truth.{all_of, is_below, reads_only, state_of_row};
ghost use Rattle.stp_split.specs.Cases.{IsShared, ShareNone, turns_at};
ghost use Rattle.stp_window.specs.Views.{point_of, points_of};

use stp_base::{AtomId, StateRow};
use stp_cond::Cond;
use stp_window::Window;
use stp_window::writing::{adds, deletes};

/// Whether an end writes the value that an atom does not have in a row.
pub(crate) fn changes(end: &Window<'_>, atom: AtomId, row: &StateRow) -> bool
    requires { atom.0 < length row.now }
    ensures { result ≡ turns_at (point_of end.now) (state_of_row row.now) atom.0 }
{
    if adds(&end.event, atom) {
        !row.get(atom)
    } else {
        deletes(&end.event, atom) && row.get(atom)
    }
}

/// Whether an end would change no atom of a formula in a row.
fn spares(end: &Window<'_>, cond: &Cond<'_>, row: &StateRow) -> bool
    requires { is_below (length row.now) cond.now ≡ true }
    ensures { result ≡ reads_only (λ a. not (turns_at (point_of end.now) (state_of_row row.now) a)) cond.now }
{
    match cond {
        Cond::True | Cond::False => true,
        Cond::Atom(atom) => !changes(end, *atom, row),
        Cond::Not(part) => spares(end, part, row),
        Cond::And(parts) | Cond::Or(parts) => {
            for part in *parts {
                if !spares(end, part, row) {
                    return false;
                }
            }
            true
        }
    }
}

/// Whether an end would change no atom of the formulas from a place on.
fn spares_from(end: &Window<'_>, conds: &[Cond<'_>], start: usize, row: &StateRow) -> bool
    requires { all_of (map (is_below (length row.now)) conds.now) ≡ true }
    ensures { result ≡ list_all (reads_only (λ a. not (turns_at (point_of end.now) (state_of_row row.now) a))) (drop start conds.now) }
{
    for place in start..conds.len() {
        if !spares(end, &conds[place], row) {
            return false;
        }
    }
    true
}

/// The first of these ends that would change both an atom of a formula and one of the formulas from a place on.
pub(crate) fn shared<'e, 'a>(
    ends: &'e [Window<'a>],
    cond: &Cond<'_>,
    conds: &[Cond<'_>],
    start: usize,
    row: &StateRow,
) -> Option<&'e Window<'a>>
    requires cond { is_below (length row.now) cond.now ≡ true }
    requires conds { all_of (map (is_below (length row.now)) conds.now) ≡ true }
    ensures there { IfSome result (λ w. Contains ends.now w.now) }
    ensures shared { MatchOption result
        (ShareNone (points_of ends.now) (state_of_row row.now) cond.now (drop start conds.now))
        (λ w. IsShared (state_of_row row.now) cond.now (drop start conds.now) (point_of w.now)) }
{
    for end in ends {
        if !spares(end, cond, row) && !spares_from(end, conds, start, row) {
            return Some(end);
        }
    }
    None
}
