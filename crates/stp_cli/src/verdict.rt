//! Verdicts on boxes.

ghost use Rattle.std.specs.Prelude.{◌≡◌, ◌+◌, ◌<◌, ◌≤◌, ◌^◌, length, count_by, IfOk};
ghost use Rattle.stp_base.specs.declared.limits.TheConstants.{MAX_EVENTS, MAX_STEPS, MAX_TIMED};
ghost use Rattle.stp_happen.specs.BoxViews.{plain_box};
ghost use Rattle.stp_happen.specs.Boxes.{IsStrong, run_under};
ghost use Rattle.stp_happen.specs.Faults.{IsFirstFault};
ghost use Rattle.stp_happen.specs.LeastFailure.{IsLeastFailure};
ghost use Rattle.stp_report.specs.Bounds.{AreWeakTimes, AreTimesOf, AreFailureTimes};
ghost use Rattle.stp_cli.specs.Replies.{IsReply};
ghost use Rattle.stp_cli.specs.Demo.{IsFailing, IsJudged, IsSummary};
ghost use Rattle.stp_cli.specs.Verdict.{IsVerdict};

use crate::reply::{Reply, reply_with};
use std::alloc::Global;
use stp_base::{Memory, StateRow};
use stp_happen::run_at::run_at;
use stp_happen::{BoxRun, BoxStep, BoxTimed, Fault, first_fault};
use stp_least::least_failure;
use stp_report::{Answer, Failure, Summary};

/// How many of these steps are uncertain.
fn count_uncertain(steps: &[BoxStep<'_>]) -> u32
    requires { length steps.now < 2 ^ 32 }
    ensures { result ≡ count_by (λ s. s.uncertain) steps.now }
{
    steps.iter().filter(|step| step.uncertain).count() as u32
}

/// How many of these events have a moment that is chosen.
fn count_chosen(events: &[BoxTimed<'_>]) -> u32
    requires { length events.now < 2 ^ 32 }
    ensures { result ≡ count_by (λ e. e.uncertain) events.now }
{
    events.iter().filter(|event| event.uncertain).count() as u32
}

/// The reply where a box is strong.
fn strong(alloc: Global, boxed: &BoxRun<'_>) -> Result<Reply, Memory>
    requires few { length boxed.now.steps ≤ MAX_STEPS }
    requires few_events { length boxed.now.timed ≤ MAX_TIMED + MAX_EVENTS }
    requires strong { IsStrong (plain_box boxed.now) }
    ensures { IfOk result (λ r. IsReply (IsVerdict boxed.now.grid (plain_box boxed.now)) r.status r.text) }
{
    let steps = boxed.steps.as_slice();
    let answer = Answer::Strong {
        steps: steps.len() as u32,
        uncertain: count_uncertain(steps),
        events: count_chosen(boxed.timed.as_slice()),
        grid: boxed.grid,
    };
    reply_with(alloc, &answer)
}

/// The first fault of the run of a box under the least durations at which it fails.
fn fault_under(alloc: Global, boxed: &BoxRun<'_>, durations: &[u128]) -> Result<Fault, Memory>
    requires { IsLeastFailure (plain_box boxed.now) durations.now }
    ensures first { IfOk result (IsFirstFault (run_under (plain_box boxed.now) durations.now)) }
    ensures times { IfOk result (AreWeakTimes boxed.now.grid durations.now) }
{
    let run = run_at(alloc, boxed, durations)?;
    let mut row = StateRow::new(alloc, run.initial.len())?;
    let Some(fault) = first_fault(&run, &mut row) else {
        unreachable!();
    };
    Ok(fault)
}

/// The reply where these are the least durations at which a box fails.
fn weak(alloc: Global, boxed: &BoxRun<'_>, durations: &[u128]) -> Result<Reply, Memory>
    requires least { IsLeastFailure (plain_box boxed.now) durations.now }
    requires weak { IsStrong (plain_box boxed.now) → ⊥ }
    ensures { IfOk result (λ r. IsReply (IsVerdict boxed.now.grid (plain_box boxed.now)) r.status r.text) }
{
    let fault = fault_under(alloc, boxed, durations)?;
    let answer = Answer::Weak {
        grid: boxed.grid,
        durations,
        fault,
    };
    reply_with(alloc, &answer)
}

/// The verdict on a box: it is strong, or these are the least durations at which it fails, and why.
pub fn verdict(alloc: Global, boxed: &BoxRun<'_>) -> Result<Reply, Memory>
    ensures { IfOk result (λ r. IsReply (IsVerdict boxed.now.grid (plain_box boxed.now)) r.status r.text) }
{
    match least_failure(alloc, boxed)? {
        None => strong(alloc, boxed),
        Some(durations) => weak(alloc, boxed, durations.as_slice()),
    }
}

/// How a box fails under the least durations at which it does.
fn failure_under(alloc: Global, boxed: &BoxRun<'_>, durations: &[u128]) -> Result<Failure, Memory>
    requires least { IsLeastFailure (plain_box boxed.now) durations.now }
    requires weak { IsStrong (plain_box boxed.now) → ⊥ }
    ensures failing { IfOk result (IsFailing (plain_box boxed.now)) }
    ensures times { IfOk result (AreTimesOf boxed.now.grid) }
{
    let fault = fault_under(alloc, boxed, durations)?;
    let last = durations.last().copied();
    Ok(Failure { last, fault })
}

/// How a box fails, or nothing where it is strong.
fn failure(alloc: Global, boxed: &BoxRun<'_>) -> Result<Option<Failure>, Memory>
    ensures judged { IfOk result (IsJudged (plain_box boxed.now)) }
    ensures times { IfOk result (AreFailureTimes boxed.now.grid) }
{
    let Some(durations) = least_failure(alloc, boxed)? else {
        return Ok(None);
    };
    let failure = failure_under(alloc, boxed, durations.as_slice())?;
    Ok(Some(failure))
}

/// What is told of a box.
pub fn summary(alloc: Global, boxed: &BoxRun<'_>) -> Result<Summary, Memory>
    ensures told { IfOk result (IsSummary boxed.now.grid (plain_box boxed.now)) }
    ensures times { IfOk result (λ s. AreFailureTimes s.grid s.failure) }
{
    let failure = failure(alloc, boxed)?;
    let steps = boxed.steps.as_slice();
    Ok(Summary {
        steps: steps.len() as u32,
        uncertain: count_uncertain(steps),
        grid: boxed.grid,
        failure,
    })
}
