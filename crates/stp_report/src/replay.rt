//! The text of a run.

ghost use Rattle.std.specs.Prelude.{◌≡◌, ◌++◌, All, IfSome, OnOk};
ghost use Rattle.stp_report.specs.Texts.{kind_text, kind_in, outer_text, entry_line, entry_lines, ending_line};
ghost use Rattle.stp_report.specs.Bounds.{IsGrid, IsTime, IsFaultTime};

use crate::fault::push_fault_line;
use crate::pieces::{push_number, push_time, push_words};
use std::alloc::Global;
use stp_base::{Memory, StepId, Text};
use stp_happen::{Entry, Fault, Run, Span};

/// What an event at this time of a step with this span is.
fn kind_word(time: u128, span: &Span<'_>) -> &'static str
    ensures { result.now ≡ kind_text time span.now }
{
    if span.from == span.to {
        "moment"
    } else if time == span.from {
        "start"
    } else {
        "end"
    }
}

/// What an event of the environment is.
fn outer_word(number: StepId) -> &'static str
    ensures { result.now ≡ outer_text number.0 }
{
    if number.0 == 0 { "timed" } else { "event" }
}

/// What an event of this number is, by the spans of all steps.
fn kind_among(time: u128, step: StepId, spans: &[Span<'_>]) -> &'static str
    ensures { result.now ≡ kind_in time step.0 spans.now }
{
    for span in spans {
        if span.step.0 == step.0 {
            return kind_word(time, span);
        }
    }
    outer_word(step)
}

/// Appends the line of an event.
fn push_entry(
    alloc: Global,
    grid: u128,
    spans: &[Span<'_>],
    entry: &Entry<'_>,
    out: &mut Text,
) -> Result<(), Memory>
    requires grid { IsGrid grid }
    requires time { IsTime grid entry.now.time }
    ensures { OnOk result (out.new ≡ out.old ++ entry_line grid spans.now entry.now) }
{
    push_time(grid, entry.time, out)?;
    push_words(" ", out)?;
    push_words(kind_among(entry.time, entry.step, spans), out)?;
    push_words(" ", out)?;
    push_number(alloc, entry.step.0, out)?;
    push_words("\n", out)?;
    Ok(())
}

/// Appends the lines of all events.
fn push_entries(
    alloc: Global,
    grid: u128,
    spans: &[Span<'_>],
    entries: &[Entry<'_>],
    out: &mut Text,
) -> Result<(), Memory>
    requires grid { IsGrid grid }
    requires times { All (λ e. IsTime grid e.time) entries.now }
    ensures { OnOk result (out.new ≡ out.old ++ entry_lines grid spans.now entries.now) }
{
    for entry in entries {
        push_entry(alloc, grid, spans, entry, out)?;
    }
    Ok(())
}

/// Appends the last line: that the run executes, or its fault.
fn push_ending(
    alloc: Global,
    grid: u128,
    fault: Option<Fault>,
    out: &mut Text,
) -> Result<(), Memory>
    requires grid { IsGrid grid }
    requires time { IfSome fault (IsFaultTime grid) }
    ensures { OnOk result (out.new ≡ out.old ++ ending_line grid fault) }
{
    match fault {
        None => push_words("executes\n", out),
        Some(fault) => push_fault_line(alloc, grid, fault, out),
    }
}

/// Appends the text of a run and its first fault.
pub fn push_replay(
    alloc: Global,
    run: &Run<'_>,
    fault: Option<Fault>,
    out: &mut Text,
) -> Result<(), Memory>
    requires { IfSome fault (IsFaultTime run.now.grid) }
    ensures { OnOk result
        (out.new
        ≡ out.old ++ entry_lines run.now.grid run.now.spans run.now.entries ++ ending_line run.now.grid fault) }
{
    push_entries(
        alloc,
        run.grid,
        run.spans.as_slice(),
        run.entries.as_slice(),
        out,
    )?;
    push_ending(alloc, run.grid, fault, out)?;
    Ok(())
}
