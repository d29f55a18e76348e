//! The texts of answers.

ghost use Rattle.std.specs.Prelude.{◌≡◌, ◌++◌, codes, All, IfOk, OnOk};
ghost use Rattle.std.specs.Fmt.{decimal};
ghost use Rattle.stp_report.specs.Texts.{line, text_of, file_text, code_text, further_text, durations_text, events_text, fault_line, strong_line};
ghost use Rattle.stp_report.specs.Bounds.{IsGrid, IsTime, IsFaultTime, AreTimes};

use crate::answer::{Answer, FileName};
use crate::code::code_word;
use crate::demo::push_demo;
use crate::fault::push_fault_line;
use crate::no_plan::push_unreachable;
use crate::pieces::{push_number, push_time, push_words};
use crate::replay::push_replay;
use std::alloc::Global;
use stp_base::{Memory, Text};
use stp_happen::Fault;
use stp_refusal::Code;

fn file_word(file: FileName) -> &'static str
    ensures { result.now ≡ file_text file }
{
    match file {
        FileName::Domain => "domain",
        FileName::Problem => "problem",
        FileName::Plan => "plan",
        FileName::Durations => "durations",
        FileName::Task => "task",
    }
}

/// Appends further durations, each behind a comma.
fn push_further(grid: u128, durations: &[u128], out: &mut Text) -> Result<(), Memory>
    requires grid { IsGrid grid }
    requires times { All (IsTime grid) durations.now }
    ensures { OnOk result (out.new ≡ out.old ++ further_text grid durations.now) }
{
    for duration in durations {
        push_words(",", out)?;
        push_time(grid, *duration, out)?;
    }
    Ok(())
}

/// Appends durations.
fn push_durations(grid: u128, durations: &[u128], out: &mut Text) -> Result<(), Memory>
    requires grid { IsGrid grid }
    requires times { All (IsTime grid) durations.now }
    ensures { OnOk result (out.new ≡ out.old ++ durations_text grid durations.now) }
{
    match durations {
        [] => push_words("none", out),
        [first, further @ ..] => {
            push_time(grid, *first, out)?;
            push_further(grid, further, out)?;
            Ok(())
        }
    }
}

/// Appends how many events have a moment that is chosen, where there are any.
fn push_events(alloc: Global, events: u32, out: &mut Text) -> Result<(), Memory>
    ensures { OnOk result (out.new ≡ out.old ++ events_text events) }
{
    if events == 0 {
        return Ok(());
    }
    push_words(" events ", out)?;
    push_number(alloc, events, out)
}

/// Appends that a plan is strong.
fn push_strong(
    alloc: Global,
    steps: u32,
    uncertain: u32,
    events: u32,
    grid: u128,
    out: &mut Text,
) -> Result<(), Memory>
    ensures { OnOk result (out.new ≡ out.old ++ line (codes "strong") ++ strong_line steps uncertain events grid) }
{
    let words = format!(in alloc; "strong\nsteps {steps} uncertain {uncertain}")?;
    out.push(words.as_bytes())?;
    push_events(alloc, events, out)?;
    let words = format!(in alloc; " grid {grid}\n")?;
    out.push(words.as_bytes())
}

/// Appends that a plan is not strong.
fn push_weak(
    alloc: Global,
    grid: u128,
    durations: &[u128],
    fault: Fault,
    out: &mut Text,
) -> Result<(), Memory>
    requires grid { IsGrid grid }
    requires durations { All (IsTime grid) durations.now }
    requires fault { IsFaultTime grid fault }
    ensures { OnOk result
        (out.new
        ≡ out.old
        ++ line (codes "not strong")
        ++ line (codes "durations " ++ durations_text grid durations.now)
        ++ fault_line grid fault) }
{
    push_words("not strong\ndurations ", out)?;
    push_durations(grid, durations, out)?;
    push_words("\n", out)?;
    push_fault_line(alloc, grid, fault, out)?;
    Ok(())
}

/// Appends a refusal.
fn push_refused(
    alloc: Global,
    file: FileName,
    code: Code,
    at: u32,
    out: &mut Text,
) -> Result<(), Memory>
    ensures { OnOk result
        (out.new
        ≡ out.old ++ line (codes "refused " ++ file_text file ++ codes " " ++ code_text code ++ codes " at " ++ decimal at)) }
{
    let name = file_word(file);
    let code = code_word(code);
    let words = format!(in alloc; "refused {name} {code} at {at}\n")?;
    out.push(words.as_bytes())
}

/// Appends that a file could not be read.
fn push_read_fault(alloc: Global, file: FileName, out: &mut Text) -> Result<(), Memory>
    ensures { OnOk result (out.new ≡ out.old ++ line (codes "fault read " ++ file_text file)) }
{
    let name = file_word(file);
    let words = format!(in alloc; "fault read {name}\n")?;
    out.push(words.as_bytes())
}

/// Appends which words are commands.
fn push_usage(out: &mut Text) -> Result<(), Memory>
    ensures { OnOk result
        (out.new
        ≡ out.old
        ++ line (codes "usage: stp check DOMAIN PROBLEM PLAN")
        ++ line (codes "       stp plan DOMAIN PROBLEM [--budget N] [--trace]")
        ++ line (codes "       stp replay DOMAIN PROBLEM PLAN --durations LIST")
        ++ line (codes "       stp demo N")) }
{
    push_words("usage: stp check DOMAIN PROBLEM PLAN\n", out)?;
    push_words(
        "       stp plan DOMAIN PROBLEM [--budget N] [--trace]\n",
        out,
    )?;
    push_words(
        "       stp replay DOMAIN PROBLEM PLAN --durations LIST\n",
        out,
    )?;
    push_words("       stp demo N\n", out)
}

/// Appends the text of an answer.
fn push_answer(alloc: Global, answer: &Answer<'_, '_>, out: &mut Text) -> Result<(), Memory>
    requires { AreTimes answer.now }
    ensures { OnOk result (out.new ≡ out.old ++ text_of answer.now) }
{
    match answer {
        Answer::Strong {
            steps,
            uncertain,
            events,
            grid,
        } => push_strong(alloc, *steps, *uncertain, *events, *grid, out),
        Answer::Weak {
            grid,
            durations,
            fault,
        } => push_weak(alloc, *grid, durations, *fault, out),
        Answer::Replay { run, fault } => push_replay(alloc, run, *fault, out),
        Answer::EmptyPlan => push_words("; plan 0 steps\n", out),
        Answer::Unreachable {
            problem,
            task,
            certificate,
        } => push_unreachable(problem, task, certificate, out),
        Answer::BudgetSpent => push_words("budget spent\n", out),
        Answer::Demo {
            number,
            plan,
            spoiled,
        } => push_demo(alloc, *number, *plan, *spoiled, out),
        Answer::Refused { file, code, at } => push_refused(alloc, *file, *code, *at, out),
        Answer::ReadFault(file) => push_read_fault(alloc, *file, out),
        Answer::Usage => push_usage(out),
    }
}

/// The text of an answer, whose times are on their grids.
pub fn print_answer(alloc: Global, answer: &Answer<'_, '_>) -> Result<Text, Memory>
    requires { AreTimes answer.now }
    ensures { IfOk result (λ t. t ≡ text_of answer.now) }
{
    let mut text = Text::new(alloc);
    push_answer(alloc, answer, &mut text)?;
    Ok(text)
}
