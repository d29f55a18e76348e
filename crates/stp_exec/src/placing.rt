//! Putting the steps of a plan in their places.

ghost use Rattle.std.specs.Prelude.{◌≡◌, ◌≢◌, ◌≤◌, false, length, map, All, IfOk, MatchResult, Ok, Err};
ghost use Rattle.stp_base.specs.declared.limits.TheConstants.{MAX_STEPS};
ghost use Rattle.stp_frac.specs.Fractions.{value_of, is_below_zero};
ghost use Rattle.stp_plan.specs.Views.{plain_step, plain_plan};
ghost use Rattle.stp_ground.specs.Worlds.{problem_in};
ghost use Rattle.stp_exec.specs.Faults.{choice_fault};
ghost use Rattle.stp_exec.specs.Placed.{placed_step, placed_from};
ghost use Rattle.stp_exec.specs.Plans.{IsPlan};
ghost use Rattle.stp_exec.specs.Views.{plain_placed};

use crate::fault::ExecFault;
use crate::placed::Placed;
use crate::{TimedStep, hold};
use bumpalo::Bump;
use std::alloc::Global;
use stp_base::{List, StepId};
use stp_ground::{InstanceFault, World, choose};
use stp_plan::{Plan, Step};
use stp_refusal::Code;

/// The refusal of a step whose name and arguments choose nothing.
fn not_chosen(number: StepId, fault: InstanceFault) -> ExecFault
    ensures { result ≡ choice_fault number fault }
{
    match fault {
        InstanceFault::UnknownAction => ExecFault::Step(number, Code::X01),
        InstanceFault::WrongCount => ExecFault::Step(number, Code::X02),
        InstanceFault::UnknownObject => ExecFault::Step(number, Code::X03),
        InstanceFault::WrongType => ExecFault::Step(number, Code::X04),
        InstanceFault::NoDuration => ExecFault::Step(number, Code::X05),
        InstanceFault::Memory => ExecFault::Memory,
    }
}

/// A step in its place, or why it is refused: first what its name and arguments choose, and then its bracket.
fn place_step<'a>(
    alloc: Global,
    arena: &'a Bump,
    world: &mut World<'a>,
    number: StepId,
    step: &Step,
) -> Result<Placed<'a>, ExecFault>
    requires { is_below_zero (value_of step.now.at).top ≡ false }
    ensures placed { MatchResult result
        (λ r. placed_step number.0 (problem_in world.old) (plain_step step.now) ≡ Ok (plain_placed r))
        (λ fault. fault ≢ ExecFault.Memory → placed_step number.0 (problem_in world.old) (plain_step step.now) ≡ Err fault) }
    ensures same { problem_in world.new ≡ problem_in world.old }
{
    let chosen = match choose(alloc, arena, world, step.name.as_slice(), &step.args) {
        Ok(chosen) => chosen,
        Err(fault) => return Err(not_chosen(number, fault)),
    };
    let held = match hold(chosen.duration, &step.bracket) {
        Ok(held) => held,
        Err(code) => return Err(ExecFault::Step(number, code)),
    };
    Ok(Placed {
        chosen,
        timed: TimedStep {
            start: step.at,
            held,
        },
    })
}

/// The steps of a plan in their places, or the first refusal of one. A step's name and arguments are judged before its
/// bracket.
pub fn place<'a>(
    alloc: Global,
    arena: &'a Bump,
    world: &mut World<'a>,
    plan: &Plan,
) -> Result<List<Placed<'a>>, ExecFault>
    requires few { length (plain_plan plan.now) ≤ MAX_STEPS }
    requires starts { All (λ s. is_below_zero s.at.top ≡ false) (plain_plan plan.now) }
    ensures placed { MatchResult result
        (λ r. placed_from 1 (problem_in world.old) (plain_plan plan.now) ≡ Ok (map plain_placed r))
        (λ fault. fault ≢ ExecFault.Memory → placed_from 1 (problem_in world.old) (plain_plan plan.now) ≡ Err fault) }
    ensures plan { IfOk result (λ r. IsPlan (problem_in world.old) (map plain_placed r)) }
    ensures few { IfOk result (λ r. length r ≤ MAX_STEPS) }
    ensures same { problem_in world.new ≡ problem_in world.old }
{
    let mut placed = List::new(alloc);
    for (index, step) in plan.steps.as_slice().iter().enumerate() {
        let number = StepId(index as u32 + 1);
        placed.push(place_step(alloc, arena, world, number, step)?)?;
    }
    Ok(placed)
}
