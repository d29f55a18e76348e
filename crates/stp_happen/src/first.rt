//! The first fault of a run.

ghost use Rattle.std.specs.Prelude.{◌≡◌, ℕ, ◌↔◌, true, length, All, IsNone, IfSome};
ghost use Rattle.std.specs.List.Sorted.{IsNonDecreasingBy};
ghost use Rattle.stp_cond.specs.Events.{IsEventInRange};
ghost use Rattle.stp_cond.specs.Truth.{is_below, meaning_of, state_of_row};
ghost use Rattle.stp_happen.specs.Faults.{FirstFaultsMeanFailure, IsFirstFault, conditions, goal_in, interferences, over_alls};
ghost use Rattle.stp_happen.specs.Firsts.{first_of};
ghost use Rattle.stp_happen.specs.Plain.{Executes, state_after};
ghost use Rattle.stp_happen.specs.Runs.{plain_run};
ghost use Rattle.stp_happen.specs.Views.{entries_of, run_of};

use crate::fault::Fault;
use crate::moments::{Firsts, moment_end, take_moment};
use crate::pairs::first_overlap;
use crate::run::{Entry, Run, Span};
use crate::sooner::sooner;
use stp_base::StateRow;
use stp_cond::{Cond, holds};

/// Takes a row, which is the first state at first, through all entries, and finds the first faults there.
fn run_through(entries: &[Entry<'_>], spans: &[Span<'_>], row: &mut StateRow) -> Firsts
    requires ordered { IsNonDecreasingBy (λ e. e.time) entries.now }
    requires entries { All (λ e. IsEventInRange (length row.old) e.event) entries.now }
    requires spans { All (λ s. is_below (length row.old) s.over.now ≡ true) spans.now }
    ensures len { length row.new ≡ length row.old }
    ensures state { (a : ℕ) → state_of_row row.new a ≡ state_after (state_of_row row.old) (entries_of entries.now) a }
    ensures interference { result.interference ≡ first_of (interferences (entries_of entries.now)) }
    ensures condition { result.condition ≡ first_of (conditions (run_of entries.now spans.now row.old Cond.True)) }
    ensures over_all { result.over_all ≡ first_of (over_alls (run_of entries.now spans.now row.old Cond.True)) }
{
    let mut firsts = Firsts {
        interference: None,
        condition: None,
        over_all: None,
    };
    let mut start = 0;
    while start < entries.len() {
        let end = moment_end(entries, start);
        let time = entries[start].time;
        firsts = take_moment(firsts, time, &entries[start..end], spans, row);
        start = end;
    }
    firsts
}

/// The fault of a goal that does not hold in the last row.
fn goal_fault(goal: &Cond<'_>, row: &StateRow) -> Option<Fault>
    requires { is_below (length row.now) goal.now ≡ true }
    ensures { result ≡ goal_in (state_of_row row.now) (meaning_of goal.now) }
{
    if holds(goal, row) {
        return None;
    }
    Some(Fault::Goal)
}

/// The first fault of a run, or none exactly where the run executes. The row is of the run's atoms, and
/// may hold anything before and after.
pub fn first_fault(run: &Run<'_>, row: &mut StateRow) -> Option<Fault>
    requires { length row.old ≡ length run.now.initial }
    ensures none { IsNone result ↔ Executes (plain_run run.now) }
    ensures first { IfSome result (IsFirstFault (plain_run run.now)) }
    ensures len { length row.new ≡ length row.old }
{
    row.copy_from(&run.initial);
    let overlap = first_overlap(None, run.spans.as_slice());
    let firsts = run_through(run.entries.as_slice(), run.spans.as_slice(), row);
    let goal = goal_fault(run.goal, row);
    let of_pairs = sooner(overlap, firsts.interference);
    let of_entries = sooner(sooner(of_pairs, firsts.condition), firsts.over_all);
    sooner(of_entries, goal)
}

/// A run that executes has no first fault.
pub fn first_faults_mean_failure()
    ensures { FirstFaultsMeanFailure }
{}
