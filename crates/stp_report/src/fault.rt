//! The texts of faults.

ghost use Rattle.std.specs.Prelude.{◌≡◌, ◌++◌, OnOk};
ghost use Rattle.stp_report.specs.Texts.{at_step, at_steps, fault_text, fault_line};
ghost use Rattle.stp_report.specs.Bounds.{IsGrid, IsTime, IsFaultTime};

use crate::pieces::{push_number, push_time, push_words};
use std::alloc::Global;
use stp_base::{Memory, StepId, Text};
use stp_happen::Fault;

/// Appends a moment and two steps.
fn push_at_steps(
    alloc: Global,
    grid: u128,
    time: u128,
    first: StepId,
    second: StepId,
    out: &mut Text,
) -> Result<(), Memory>
    requires grid { IsGrid grid }
    requires time { IsTime grid time }
    ensures { OnOk result (out.new ≡ out.old ++ at_steps grid time first.0 second.0) }
{
    push_words(" at ", out)?;
    push_time(grid, time, out)?;
    push_words(" steps ", out)?;
    push_number(alloc, first.0, out)?;
    push_words(" ", out)?;
    push_number(alloc, second.0, out)?;
    Ok(())
}

/// Appends a moment and a step.
fn push_at_step(
    alloc: Global,
    grid: u128,
    time: u128,
    step: StepId,
    out: &mut Text,
) -> Result<(), Memory>
    requires grid { IsGrid grid }
    requires time { IsTime grid time }
    ensures { OnOk result (out.new ≡ out.old ++ at_step grid time step.0) }
{
    push_words(" at ", out)?;
    push_time(grid, time, out)?;
    push_words(" step ", out)?;
    push_number(alloc, step.0, out)?;
    Ok(())
}

/// Appends a fault.
fn push_fault(alloc: Global, grid: u128, fault: Fault, out: &mut Text) -> Result<(), Memory>
    requires grid { IsGrid grid }
    requires time { IsFaultTime grid fault }
    ensures { OnOk result (out.new ≡ out.old ++ fault_text grid fault) }
{
    match fault {
        Fault::Overlap {
            time,
            first,
            second,
        } => {
            push_words("overlap", out)?;
            push_at_steps(alloc, grid, time, first, second, out)?;
            Ok(())
        }
        Fault::Interference {
            time,
            first,
            second,
        } => {
            push_words("interference", out)?;
            push_at_steps(alloc, grid, time, first, second, out)?;
            Ok(())
        }
        Fault::Condition { time, step } => {
            push_words("condition", out)?;
            push_at_step(alloc, grid, time, step, out)?;
            Ok(())
        }
        Fault::OverAll { time, step } => {
            push_words("over-all", out)?;
            push_at_step(alloc, grid, time, step, out)?;
            Ok(())
        }
        Fault::Goal => push_words("goal", out),
    }
}

/// Appends the line of a fault.
pub fn push_fault_line(
    alloc: Global,
    grid: u128,
    fault: Fault,
    out: &mut Text,
) -> Result<(), Memory>
    requires grid { IsGrid grid }
    requires time { IsFaultTime grid fault }
    ensures { OnOk result (out.new ≡ out.old ++ fault_line grid fault) }
{
    push_words("fault ", out)?;
    push_fault(alloc, grid, fault, out)?;
    push_words("\n", out)?;
    Ok(())
}
