//! Plans that are found without a search.

ghost use Rattle.std.specs.Prelude.{◌≡◌, true, false, IfOk, None, []};
ghost use Rattle.stp_schema.specs.Views.{problem_of};
ghost use Rattle.stp_task.specs.CertificateViews.{pair_of};
ghost use Rattle.stp_task.specs.Certificates.{IsLeastClosed, possible};
ghost use Rattle.stp_task.specs.Tasks.{plain_task};
ghost use Rattle.stp_exec.specs.Boxed.{beyond_limits};
ghost use Rattle.stp_exec.specs.Plans.{IsStrongPlan};
ghost use Rattle.stp_unreachable.specs.PlansOf.{HasPlainSimpleActions};
ghost use Rattle.stp_cli.specs.Texts.{AreShort};
ghost use Rattle.stp_cli.specs.Replies.{IsReply};
ghost use Rattle.stp_cli.specs.Planned.{IsPlannedTask};
ghost use Rattle.stp_cli.specs.Answers.{IsPlanned, IsPlannedIn};

use crate::case::read_problem_texts;
use crate::refusal::ground_refused;
use crate::reply::{Reply, refuse, reply_with};
use crate::texts::Texts;
use bumpalo::Bump;
use std::alloc::Global;
use stp_base::Memory;
use stp_check::{Verdict, strong};
use stp_exec::{ExecFault, box_placed};
use stp_ground::World;
use stp_kept::ground_all;
use stp_relax::{possible, reach};
use stp_report::Answer;
use stp_schema::Problem;
use stp_task::{Certificate, Task};

/// Whether the plan without steps is strong.
fn is_empty_plan_strong<'a>(
    alloc: Global,
    arena: &'a Bump,
    problem: &'a Problem<'a>,
) -> Result<bool, Memory>
    requires { beyond_limits (problem_of problem.now) [] ≡ None }
    ensures strong { IfOk result (λ r. r ≡ true → IsStrongPlan (problem_of problem.now) []) }
    ensures weak { IfOk result (λ r. r ≡ false → IsStrongPlan (problem_of problem.now) [] → ⊥) }
{
    let mut world = World::new(alloc, problem)?;
    let made = match box_placed(alloc, arena, &mut world, &[]) {
        Ok(made) => made,
        Err(ExecFault::Memory) => return Err(Memory),
        Err(_) => unreachable!(),
    };
    match strong(alloc, &made.boxed)? {
        Verdict::Strong => Ok(true),
        Verdict::Weak(_) => Ok(false),
    }
}

/// The reply where a certificate shows that a goal cannot be reached.
fn reply_unreachable<'r, 'a>(
    alloc: Global,
    problem: &'r Problem<'a>,
    task: &'r Task<'a>,
    certificate: &'r Certificate,
) -> Result<Reply, Memory>
    requires weak { IsStrongPlan (problem_of problem.now) [] → ⊥ }
    requires least { IsLeastClosed (plain_task task.now) (pair_of certificate.now) }
    requires impossible { possible (pair_of certificate.now) (plain_task task.now).goal ≡ false }
    ensures { IfOk result (λ r. IsReply (IsPlannedTask (problem_of problem.now) (plain_task task.now)) r.status r.text) }
{
    let answer = Answer::Unreachable {
        problem,
        task,
        certificate,
    };
    reply_with(alloc, &answer)
}

/// The reply where the plan without steps is not strong.
fn plan_further<'a>(alloc: Global, problem: &Problem<'a>, task: &Task<'a>) -> Result<Reply, Memory>
    requires weak { IsStrongPlan (problem_of problem.now) [] → ⊥ }
    ensures { IfOk result (λ r. IsReply (IsPlannedTask (problem_of problem.now) (plain_task task.now)) r.status r.text) }
{
    let certificate = reach(alloc, task)?;
    if possible(task.goal, &certificate) {
        return reply_with(alloc, &Answer::BudgetSpent);
    }
    reply_unreachable(alloc, problem, task, &certificate)
}

/// The reply to `plan` on a problem, where nothing may be searched.
fn plan<'a>(alloc: Global, arena: &'a Bump, problem: &'a Problem<'a>) -> Result<Reply, Memory>
    requires { HasPlainSimpleActions (problem_of problem.now) }
    ensures { IfOk result (λ r. IsReply (IsPlannedIn (problem_of problem.now)) r.status r.text) }
{
    let task = match ground_all(alloc, arena, problem) {
        Ok(task) => task,
        Err(fault) => return refuse(alloc, ground_refused(fault)),
    };
    if is_empty_plan_strong(alloc, arena, problem)? {
        return reply_with(alloc, &Answer::EmptyPlan);
    }
    plan_further(alloc, problem, &task)
}

/// The reply to `plan` on the texts of a problem, where nothing may be searched.
pub fn plan_texts(alloc: Global, texts: &Texts) -> Result<Reply, Memory>
    requires { AreShort texts.now }
    ensures { IfOk result (λ r. IsReply (IsPlanned texts.now) r.status r.text) }
{
    let arena = Bump::new(alloc);
    let problem = match read_problem_texts(
        alloc,
        &arena,
        texts.domain.as_slice(),
        texts.problem.as_slice(),
    ) {
        Ok(problem) => problem,
        Err(fault) => return refuse(alloc, fault),
    };
    plan(alloc, &arena, &problem)
}
