//! Runs under chosen durations.

ghost use Rattle.std.specs.Prelude.{◌≡◌, ◌<◌, ◌≤◌, ◌*◌, ◌≢◌, ◌^◌, length, map, None, IfOk, IfErr, IfSome, Ok, Err};
ghost use Rattle.stp_frac.specs.Fractions.{value_of, is_below_zero};
ghost use Rattle.std.specs.Borrow.{Bor};
ghost use Rattle.stp_base.specs.declared.limits.TheConstants.{MAX_GRID};
ghost use Rattle.stp_happen.specs.BoxViews.{plain_box};
ghost use Rattle.stp_happen.specs.Boxes.{finer_box, IsVector};
ghost use Rattle.stp_happen.specs.declared.run.Run.{Run as TheRun};
ghost use Rattle.stp_report.specs.Bounds.{IsFaultTime};
ghost use Rattle.stp_exec.specs.Lists.{durations_in};
ghost use Rattle.stp_exec.specs.Timed.{base_grid, count_of};
ghost use Rattle.stp_exec.specs.TimeViews.{plain_times};
ghost use Rattle.stp_exec.specs.Fitting.{grid_with, judge_list};
ghost use Rattle.stp_cli.specs.Case.{PlainCase};
ghost use Rattle.stp_cli.specs.Cases.{StandsFor};
ghost use Rattle.stp_cli.specs.Replies.{IsReply};
ghost use Rattle.stp_cli.specs.Replay.{bad_list, list_read, list_fits, IsRunWith, IsReplayedCase};

use crate::refusal::{CaseFault, read_refused, refused};
use crate::reply::{Reply, refuse, reply_with};
use std::alloc::Global;
use stp_base::{List, Memory, StateRow};
use stp_exec::{BoxedPlan, Fitted, ListFault, Times, fit_durations, read_durations};
use stp_frac::Frac;
use stp_happen::refine::refine;
use stp_happen::run_at::run_at;
use stp_happen::{BoxRun, Fault, Run, first_fault};
use stp_refusal::Code;
use stp_report::{Answer, FileName};

/// A fault of a list of durations as its refusal.
fn list_refused(fault: ListFault) -> CaseFault
    ensures memory { fault ≡ ListFault.Memory → result ≡ CaseFault.Memory }
    ensures refused { fault ≡ ListFault.BadList → result ≡ bad_list }
{
    match fault {
        ListFault::BadList => refused(FileName::Durations, Code::V01, 0),
        ListFault::Memory => CaseFault::Memory,
    }
}

/// The durations that a text lists.
fn read_list(alloc: Global, text: &[u8]) -> Result<List<Frac>, CaseFault>
    ensures ok { IfOk result (λ r. list_read (durations_in text.now) ≡ Ok (map value_of r)) }
    ensures few { IfOk result (λ r. length r < 2 ^ 32) }
    ensures refused { IfErr result (λ fault. fault ≢ CaseFault.Memory → list_read (durations_in text.now) ≡ Err fault) }
{
    let durations = match read_durations(alloc, text) {
        Ok(durations) => durations,
        Err(fault) => return Err(list_refused(fault)),
    };
    if durations.as_slice().len() > u32::MAX as usize {
        return Err(CaseFault::Memory);
    }
    Ok(durations)
}

/// The durations in moments of the least grid on which they and the steps lie.
fn fit(
    alloc: Global,
    grid: u128,
    times: &Times<'_>,
    durations: &[Frac],
) -> Result<Fitted, CaseFault>
    requires base { grid ≡ base_grid (plain_times times.now) }
    requires high { grid ≤ MAX_GRID }
    requires few { length durations.now < 2 ^ 32 }
    ensures judged { IfOk result (λ _. judge_list (plain_times times.now) (map value_of durations.now) ≡ None) }
    ensures grid { IfOk result (λ f. f.grid ≡ grid_with (plain_times times.now) (map value_of durations.now)) }
    ensures durations { IfOk result (λ f. f.durations ≡ map (count_of f.grid) (map value_of durations.now)) }
    ensures refused { IfErr result (λ fault. fault ≢ CaseFault.Memory → list_fits (judge_list (plain_times times.now) (map value_of durations.now)) (map value_of durations.now) ≡ Err fault) }
{
    match fit_durations(alloc, grid, times, durations) {
        Ok(fitted) => Ok(fitted),
        Err(fault) => Err(read_refused(FileName::Durations, fault)),
    }
}

/// The reply that shows a run and its first fault.
fn show(alloc: Global, run: &Run<'_>, fault: Option<Fault>) -> Result<Reply, Memory>
    requires { IfSome fault (IsFaultTime run.now.grid) }
    ensures { IfOk result (λ r. IsReply (λ a. (shown : Bor TheRun) × (shown.now ≡ run.now) × (a ≡ Answer.Replay shown fault)) r.status r.text) }
{
    reply_with(alloc, &Answer::Replay { run, fault })
}

/// The reply that shows the run of a box under these durations, on a grid that is finer by a factor.
fn run_on(
    alloc: Global,
    boxed: &BoxRun<'_>,
    factor: u128,
    durations: &[u128],
) -> Result<Reply, Memory>
    requires factor { 1 ≤ factor }
    requires grid { boxed.now.grid * factor ≤ MAX_GRID }
    requires vector { IsVector (finer_box factor (plain_box boxed.now)).owners durations.now }
    ensures { IfOk result (λ r. IsReply (IsRunWith (boxed.now.grid * factor) (finer_box factor (plain_box boxed.now)) durations.now) r.status r.text) }
{
    let finer = refine(alloc, boxed, factor)?;
    let run = run_at(alloc, &finer, durations)?;
    let mut row = StateRow::new(alloc, run.initial.len())?;
    let fault = first_fault(&run, &mut row);
    show(alloc, &run, fault)
}

/// The reply to `replay` on a case and a list of durations.
pub fn replay(alloc: Global, case: &BoxedPlan<'_>, list: &[u8]) -> Result<Reply, Memory>
    requires { (c : PlainCase) × StandsFor case.now c }
    ensures { IfOk result (λ r. (c : PlainCase) → StandsFor case.now c → IsReply (IsReplayedCase list.now c) r.status r.text) }
{
    let durations = match read_list(alloc, list) {
        Ok(durations) => durations,
        Err(fault) => return refuse(alloc, fault),
    };
    let grid = case.boxed.grid;
    let fitted = match fit(alloc, grid, &case.times, durations.as_slice()) {
        Ok(fitted) => fitted,
        Err(fault) => return refuse(alloc, fault),
    };
    let factor = fitted.grid / grid;
    run_on(alloc, &case.boxed, factor, fitted.durations.as_slice())
}
