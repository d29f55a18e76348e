//! The text of a demo.

ghost use Rattle.std.specs.Prelude.{◌≡◌, ◌++◌, codes, IfSome, OnOk};
ghost use Rattle.std.specs.Fmt.{decimal};
ghost use Rattle.stp_report.specs.Texts.{line, last_text, verdict_text, summary_line, grid_text, failing_text, failure_text};
ghost use Rattle.stp_report.specs.Bounds.{IsGrid, IsTime, AreTimesOf, AreFailureTimes};

use crate::answer::{Failure, Summary};
use crate::fault::push_fault_line;
use crate::pieces::{push_number, push_time, push_words};
use std::alloc::Global;
use stp_base::{Memory, Text};

/// Whether a plan that may fail so is strong.
fn verdict_word(failure: Option<Failure>) -> &'static str
    ensures { result.now ≡ verdict_text failure }
{
    match failure {
        None => "strong",
        Some(_) => "not strong",
    }
}

/// Appends what is told of a plan.
fn push_summary(alloc: Global, summary: Summary, out: &mut Text) -> Result<(), Memory>
    ensures { OnOk result (out.new ≡ out.old ++ summary_line summary) }
{
    let Summary {
        steps,
        uncertain,
        grid,
        failure,
    } = summary;
    let verdict = verdict_word(failure);
    let words = format!(in alloc; "steps {steps} uncertain {uncertain} grid {grid} {verdict}\n")?;
    out.push(words.as_bytes())
}

/// Appends the last entry of a least failure.
fn push_last(grid: u128, last: Option<u128>, out: &mut Text) -> Result<(), Memory>
    requires grid { IsGrid grid }
    requires time { IfSome last (IsTime grid) }
    ensures { OnOk result (out.new ≡ out.old ++ last_text grid last) }
{
    match last {
        None => push_words("none", out),
        Some(time) => push_time(grid, time, out),
    }
}

/// Appends the grid of the spoiled plan.
fn push_grid(alloc: Global, grid: u128, out: &mut Text) -> Result<(), Memory>
    ensures { OnOk result (out.new ≡ out.old ++ grid_text grid) }
{
    let words = format!(in alloc; "spoiled grid {grid}")?;
    out.push(words.as_bytes())
}

/// Appends how the spoiled plan fails.
fn push_failing(alloc: Global, grid: u128, failure: Failure, out: &mut Text) -> Result<(), Memory>
    requires { AreTimesOf grid failure }
    ensures { OnOk result (out.new ≡ out.old ++ failing_text grid failure) }
{
    push_words(" last ", out)?;
    push_last(grid, failure.last, out)?;
    push_words(" ", out)?;
    push_fault_line(alloc, grid, failure.fault, out)?;
    Ok(())
}

/// Appends whether the spoiled plan fails, and how.
fn push_failure(
    alloc: Global,
    grid: u128,
    failure: Option<Failure>,
    out: &mut Text,
) -> Result<(), Memory>
    requires { AreFailureTimes grid failure }
    ensures { OnOk result (out.new ≡ out.old ++ failure_text grid failure) }
{
    match failure {
        None => push_words(" strong\n", out),
        Some(failure) => push_failing(alloc, grid, failure, out),
    }
}

/// Appends the text of a demo.
pub fn push_demo(
    alloc: Global,
    number: u32,
    plan: Summary,
    spoiled: Summary,
    out: &mut Text,
) -> Result<(), Memory>
    requires { AreFailureTimes spoiled.grid spoiled.failure }
    ensures { OnOk result
        (out.new
        ≡ out.old
        ++ line (codes "demo " ++ decimal number)
        ++ summary_line plan
        ++ grid_text spoiled.grid
        ++ failure_text spoiled.grid spoiled.failure) }
{
    push_words("demo ", out)?;
    push_number(alloc, number, out)?;
    push_words("\n", out)?;
    push_summary(alloc, plan, out)?;
    push_grid(alloc, spoiled.grid, out)?;
    push_failure(alloc, spoiled.grid, spoiled.failure, out)?;
    Ok(())
}
