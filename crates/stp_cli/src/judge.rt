//! Replies on the texts of a command's files.

ghost use Rattle.std.specs.Prelude.{IfOk};
ghost use Rattle.stp_cli.specs.Texts.{AreShort};
ghost use Rattle.stp_cli.specs.Words.{IsSized};
ghost use Rattle.stp_cli.specs.Replies.{IsReply};
ghost use Rattle.stp_cli.specs.Answers.{IsChecked, IsReplayed, IsRight};

use crate::case::{read_problem_texts, read_steps};
use crate::demo::demo;
use crate::plan::plan_texts;
use crate::replay::replay;
use crate::reply::{Reply, refuse};
use crate::texts::Texts;
use crate::verdict::verdict;
use crate::words::Work;
use bumpalo::Bump;
use std::alloc::Global;
use stp_base::Memory;

/// The reply to `check` on the texts of a case.
fn check_texts(alloc: Global, texts: &Texts) -> Result<Reply, Memory>
    requires { AreShort texts.now }
    ensures { IfOk result (λ r. IsReply (IsChecked texts.now) r.status r.text) }
{
    let arena = Bump::new(alloc);
    let problem = match read_problem_texts(
        alloc,
        &arena,
        texts.domain.as_slice(),
        texts.problem.as_slice(),
    ) {
        Ok(problem) => problem,
        Err(fault) => return refuse(alloc, fault),
    };
    let case = match read_steps(alloc, &arena, &problem, texts.plan.as_slice()) {
        Ok(case) => case,
        Err(fault) => return refuse(alloc, fault),
    };
    verdict(alloc, &case.boxed)
}

/// The reply to `replay` on the texts of a case and a list of durations.
fn replay_texts(alloc: Global, texts: &Texts, list: &str) -> Result<Reply, Memory>
    requires { AreShort texts.now }
    ensures { IfOk result (λ r. IsReply (IsReplayed list.now texts.now) r.status r.text) }
{
    let arena = Bump::new(alloc);
    let problem = match read_problem_texts(
        alloc,
        &arena,
        texts.domain.as_slice(),
        texts.problem.as_slice(),
    ) {
        Ok(problem) => problem,
        Err(fault) => return refuse(alloc, fault),
    };
    let case = match read_steps(alloc, &arena, &problem, texts.plan.as_slice()) {
        Ok(case) => case,
        Err(fault) => return refuse(alloc, fault),
    };
    replay(alloc, &case, list.as_bytes())
}

/// The reply to a work on the texts of its files: a line for each work.
pub fn judge(alloc: Global, work: Work, list: &str, texts: &Texts) -> Result<Reply, Memory>
    requires short { AreShort texts.now }
    requires sized { IsSized work }
    ensures { IfOk result (λ r. IsReply (IsRight work list.now texts.now) r.status r.text) }
{
    match work {
        Work::Check => check_texts(alloc, texts),
        Work::Replay => replay_texts(alloc, texts, list),
        Work::Plan => plan_texts(alloc, texts),
        Work::Demo(number) => demo(alloc, number),
    }
}
