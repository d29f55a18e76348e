//! Printing plans.

ghost use Rattle.std.specs.Prelude.{◌≡◌, ◌++◌, IfOk, OnOk};
ghost use Rattle.stp_plan.specs.Laws.{IsShort, IsLawfulPlan};
ghost use Rattle.stp_plan.specs.Plans.{plan_of};
ghost use Rattle.stp_plan.specs.Printing.{args_text, bracket_text, step_text, plan_text};
ghost use Rattle.stp_plan.specs.Views.{plain_bracket, plain_step, plain_plan};

use crate::steps::{Bracket, Plan, Step};
use std::alloc::Global;
use stp_base::{Memory, Text};

/// Appends each argument after a space.
fn print_args(args: &[Text], into: &mut Text) -> Result<(), Memory>
    ensures { OnOk result (into.new ≡ into.old ++ args_text args.now) }
{
    for arg in args {
        into.push(b" ")?;
        into.push(arg.as_slice())?;
    }
    Ok(())
}

/// Appends a bracket after a space, or nothing.
fn print_bracket(bracket: &Bracket, into: &mut Text) -> Result<(), Memory>
    ensures { OnOk result (into.new ≡ into.old ++ bracket_text (plain_bracket bracket.now)) }
{
    match bracket {
        Bracket::Absent => Ok(()),
        Bracket::Number(number) => {
            into.push(b" [")?;
            number.print(into)?;
            into.push(b"]")
        }
        Bracket::Star => into.push(b" [*]"),
        Bracket::Pair(low, high) => {
            into.push(b" [")?;
            low.print(into)?;
            into.push(b",")?;
            high.print(into)?;
            into.push(b"]")
        }
    }
}

/// Appends a step's line without its line feed.
fn print_step(step: &Step, into: &mut Text) -> Result<(), Memory>
    ensures { OnOk result (into.new ≡ into.old ++ step_text (plain_step step.now)) }
{
    step.at.print(into)?;
    into.push(b": (")?;
    into.push(step.name.as_slice())?;
    print_args(step.args.as_slice(), into)?;
    into.push(b")")?;
    print_bracket(&step.bracket, into)
}

/// The text of a plan: a line for each step, ended by a line feed. A plan of at most 500 steps, with lower case names
/// and numbers that can be spelled, is what its text is read as.
pub fn print_plan(alloc: Global, plan: &Plan) -> Result<Text, Memory>
    ensures text { IfOk result (λ text. text ≡ plan_text (plain_plan plan.now)) }
    ensures again { IfOk result (λ text. IsLawfulPlan IsShort (plain_plan plan.now) → plan_of text ≡ Ok (plain_plan plan.now)) }
{
    let mut text = Text::new(alloc);
    for step in plan.steps.as_slice() {
        print_step(step, &mut text)?;
        text.push(b"\n")?;
    }
    Ok(text)
}
