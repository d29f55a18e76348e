//! Reading plans, and single names with their arguments.

ghost use Rattle.std.specs.Prelude.{◌≡◌, ◌≢◌, ◌≤◌, length, IfOk, OnOk, MatchResult};
ghost use Rattle.stp_base.specs.declared.limits.TheConstants.{MAX_FILE_BYTES};
ghost use Rattle.stp_plan.specs.Laws.{IsAbove, IsLawfulPlan};
ghost use Rattle.stp_plan.specs.Names.{named_of};
ghost use Rattle.stp_plan.specs.Plans.{plan_of, with_step};
ghost use Rattle.stp_plan.specs.Views.{plain_step, plain_plan, so_far_of};

use crate::atoms::{Named, atom};
use crate::fault::PlanFault;
use crate::line::lines;
use crate::parts::is_blank;
use crate::steps::{Plan, Step, read_step};
use std::alloc::Global;
use stp_base::limits::MAX_STEPS;
use stp_base::{List, Memory};

/// The folded name and arguments of one `(name args)`, with white bytes at its ends and round each word; none exactly
/// where the text is no such thing.
#[tactic(auto, unfolding(crate::specs::Names::named_of))]
pub fn named(alloc: Global, text: &[u8]) -> Result<Option<Named>, Memory>
    ensures { IfOk result (λ r. r ≡ named_of text.now) }
{
    let Some((named, rest)) = atom(alloc, text)? else {
        return Ok(None);
    };
    if !is_blank(rest) {
        return Ok(None);
    }
    Ok(Some(named))
}

/// What is kept of a plan while its lines are read.
#[derive(Drop)]
struct Kept {
    /// The first 500 steps.
    steps: List<Step>,
    /// The line of the next one.
    extra: Option<u32>,
}

/// Keeps the step of a line.
fn keep(kept: &mut Kept, number: u32, step: Step) -> Result<(), Memory>
    ensures { OnOk result (so_far_of kept.new ≡ with_step number (plain_step step) (so_far_of kept.old)) }
{
    if kept.steps.as_slice().len() < MAX_STEPS {
        return kept.steps.push(step);
    }
    kept.extra = Some(kept.extra.unwrap_or(number));
    Ok(())
}

/// The plan that a text of at most 1,048,576 bytes is. It is refused for the first line that is neither empty nor a
/// step, and where there is none for the line of the 501st step. No number of it is below 0.
pub fn read_plan(alloc: Global, bytes: &[u8]) -> Result<Plan, PlanFault>
    requires { length bytes.now ≤ MAX_FILE_BYTES }
    ensures read { MatchResult result (λ plan. plan_of bytes.now ≡ Ok (plain_plan plan)) (λ fault. fault ≢ PlanFault.Memory → plan_of bytes.now ≡ Err fault) }
    ensures lawful { IfOk result (λ plan. IsLawfulPlan IsAbove (plain_plan plan)) }
{
    let found = lines(alloc, bytes)?;
    let mut kept = Kept {
        steps: List::new(alloc),
        extra: None,
    };
    for (index, line) in found.as_slice().iter().enumerate() {
        let number = index as u32 + 1;
        let text = &bytes[line.from as usize..line.to as usize];
        if text.is_empty() {
            continue;
        }
        let Some(step) = read_step(alloc, text)? else {
            return Err(PlanFault::BadLine(number));
        };
        keep(&mut kept, number, step)?;
    }
    if let Some(number) = kept.extra {
        return Err(PlanFault::TooManySteps(number));
    }
    Ok(Plan { steps: kept.steps })
}
