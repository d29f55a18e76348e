//! Answers, printed.

ghost use Rattle.std.specs.Prelude.{◌≡◌, IfOk, IfErr};
ghost use Rattle.stp_report.specs.Bounds.{AreTimes};
ghost use Rattle.stp_report.specs.Texts.{text_of};
ghost use Rattle.stp_cli.specs.Refusals.{refused};
ghost use Rattle.stp_cli.specs.Replies.{status_of, IsReply};
ghost use Rattle.stp_cli.specs.declared.refusal.Refusal.{Refusal as TheRefusal};

use crate::refusal::{CaseFault, Refusal};
use crate::status::Status;
use std::alloc::Global;
use stp_base::{Memory, Text};
use stp_report::{Answer, print_answer};

/// What is written for an answer, and how the call ends.
#[derive(Drop)]
pub struct Reply {
    pub status: Status,
    pub text: Text,
}

fn status_of(answer: &Answer<'_, '_>) -> Status
    ensures { result ≡ status_of answer.now }
{
    match answer {
        Answer::Strong { .. } => Status::Done,
        Answer::Weak { .. } => Status::No,
        Answer::Replay { fault: None, .. } => Status::Done,
        Answer::Replay { fault: Some(_), .. } => Status::No,
        Answer::EmptyPlan => Status::Done,
        Answer::Unreachable { .. } => Status::No,
        Answer::BudgetSpent => Status::BudgetSpent,
        Answer::Demo { .. } => Status::Done,
        Answer::Refused { .. } => Status::Refused,
        Answer::ReadFault(_) => Status::OutsideFault,
        Answer::Usage => Status::Usage,
    }
}

/// An answer, printed.
pub(crate) fn reply_with(alloc: Global, answer: &Answer<'_, '_>) -> Result<Reply, Memory>
    requires { AreTimes answer.now }
    ensures status { IfOk result (λ r. r.status ≡ status_of answer.now) }
    ensures text { IfOk result (λ r. r.text ≡ text_of answer.now) }
    ensures reply { IfOk result (λ r. IsReply (λ a. a ≡ answer.now) r.status r.text) }
{
    let text = print_answer(alloc, answer)?;
    Ok(Reply {
        status: status_of(answer),
        text,
    })
}

/// What is answered to a refusal.
fn refused_answer(fault: CaseFault) -> Result<Answer<'static, 'static>, Memory>
    ensures refused { IfOk result (λ a. (refusal : TheRefusal)
        × (fault ≡ CaseFault.Refused refusal)
        × (a ≡ refused refusal)) }
    ensures memory { IfErr result (λ _. fault ≡ CaseFault.Memory) }
{
    match fault {
        CaseFault::Refused(Refusal { file, code, at }) => Ok(Answer::Refused { file, code, at }),
        CaseFault::Memory => Err(Memory),
    }
}

/// The reply to a refusal.
pub(crate) fn refuse(alloc: Global, fault: CaseFault) -> Result<Reply, Memory>
    ensures { IfOk result (λ r. (refusal : TheRefusal)
        × (fault ≡ CaseFault.Refused refusal)
        × IsReply (λ a. a ≡ refused refusal) r.status r.text) }
{
    match refused_answer(fault) {
        Ok(answer) => reply_with(alloc, &answer),
        Err(fault) => Err(fault),
    }
}
