//! The demo: texts that are made and judged.

ghost use Rattle.std.specs.Prelude.{◌≡◌, ◌≢◌, ◌≤◌, length, IfOk, IfErr, Err};
ghost use Rattle.stp_base.specs.declared.limits.TheConstants.{MAX_FILE_BYTES};
ghost use Rattle.stp_schema.specs.Views.{problem_of};
ghost use Rattle.stp_report.specs.Bounds.{AreFailureTimes};
ghost use Rattle.stp_cli.specs.Case.{steps_of};
ghost use Rattle.stp_cli.specs.Refusals.{IsOrRefused};
ghost use Rattle.stp_cli.specs.Replies.{IsReply};
ghost use Rattle.stp_cli.specs.Demo.{IsToldOf, cases_of, IsShown, IsDemo};

use crate::case::{read_problem_texts, read_steps};
use crate::refusal::CaseFault;
use crate::reply::{Reply, refuse, reply_with};
use crate::verdict::summary;
use bumpalo::Bump;
use std::alloc::Global;
use stp_base::Memory;
use stp_demo::{demo_domain, demo_plan, demo_problem};
use stp_report::{Answer, Summary};
use stp_schema::Problem;

/// What is told of a plan's bytes in a problem.
fn summary_of_text<'a>(
    alloc: Global,
    arena: &'a Bump,
    problem: &'a Problem<'a>,
    plan: &[u8],
) -> Result<Summary, CaseFault>
    requires { length plan.now ≤ MAX_FILE_BYTES }
    ensures ok { IfOk result (IsToldOf (problem_of problem.now) (steps_of (problem_of problem.now) plan.now)) }
    ensures times { IfOk result (λ s. AreFailureTimes s.grid s.failure) }
    ensures refused { IfErr result (λ fault. fault ≢ CaseFault.Memory → steps_of (problem_of problem.now) plan.now ≡ Err fault) }
{
    let made = match read_steps(alloc, arena, problem, plan) {
        Ok(made) => made,
        Err(fault) => return Err(fault),
    };
    let summary = summary(alloc, &made.boxed)?;
    Ok(summary)
}

/// The reply on a problem's texts, a plan and a spoiled plan.
fn demo_on_texts(
    alloc: Global,
    number: u32,
    domain: &[u8],
    problem: &[u8],
    plan: &[u8],
    spoiled: &[u8],
) -> Result<Reply, Memory>
    requires domain { length domain.now ≤ MAX_FILE_BYTES }
    requires problem { length problem.now ≤ MAX_FILE_BYTES }
    requires plan { length plan.now ≤ MAX_FILE_BYTES }
    requires spoiled { length spoiled.now ≤ MAX_FILE_BYTES }
    ensures { IfOk result (λ r. IsReply
        (IsOrRefused (IsShown number) (cases_of domain.now problem.now plan.now spoiled.now))
        r.status
        r.text) }
{
    let arena = Bump::new(alloc);
    let problem = match read_problem_texts(alloc, &arena, domain, problem) {
        Ok(problem) => problem,
        Err(fault) => return refuse(alloc, fault),
    };
    let plan = match summary_of_text(alloc, &arena, &problem, plan) {
        Ok(plan) => plan,
        Err(fault) => return refuse(alloc, fault),
    };
    let spoiled = match summary_of_text(alloc, &arena, &problem, spoiled) {
        Ok(spoiled) => spoiled,
        Err(fault) => return refuse(alloc, fault),
    };
    let answer = Answer::Demo {
        number,
        plan,
        spoiled,
    };
    reply_with(alloc, &answer)
}

/// The reply to `demo`: what is told of the plan of so many rovers, and of the spoiled one.
pub fn demo(alloc: Global, number: u32) -> Result<Reply, Memory>
    requires least { 1 ≤ number }
    requires most { number ≤ 250 }
    ensures { IfOk result (λ r. IsReply (IsDemo number) r.status r.text) }
{
    let domain = demo_domain(alloc)?;
    let problem = demo_problem(alloc, number)?;
    let plan = demo_plan(alloc, number, false)?;
    let spoiled = demo_plan(alloc, number, true)?;
    demo_on_texts(
        alloc,
        number,
        domain.as_slice(),
        problem.as_slice(),
        plan.as_slice(),
        spoiled.as_slice(),
    )
}
