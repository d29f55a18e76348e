//! Refusals of files, and why there is no case.

ghost use Rattle.std.specs.Prelude.{◌≡◌};
ghost use Rattle.stp_cli.specs.Refusals.{refused_at, text_fault, read_fault, plan_fault, exec_fault, ground_fault};
ghost use Rattle.stp_cli.specs.declared.refusal.CaseFault.TheVariants.{Memory as OutOfMemory};

use stp_base::Memory;
use stp_exec::ExecFault;
use stp_kept::GroundFault;
use stp_plan::PlanFault;
use stp_refusal::{Code, ReadFault};
use stp_report::FileName;
use stp_text::TextFault;
use thiserror::Error;

/// A file that is refused: by which code, and where in it.
#[derive(Clone, Copy, Debug, PartialEq, Eq)]
pub struct Refusal {
    pub file: FileName,
    pub code: Code,
    pub at: u32,
}

/// Why there is no case.
#[derive(Clone, Copy, Debug, PartialEq, Eq, Error)]
pub enum CaseFault {
    /// A file is refused.
    #[error("a file is refused")]
    Refused(Refusal),
    /// Memory was refused.
    #[error("out of memory")]
    Memory,
}

impl From<Memory> for CaseFault {
    ghost from_gives = { λ _ fault. fault ≡ OutOfMemory };

    fn from(_error: Memory) -> CaseFault {
        CaseFault::Memory
    }
}

/// A refusal of a file.
pub(crate) fn refused(file: FileName, code: Code, at: u32) -> CaseFault
    ensures { result ≡ refused_at file code at }
{
    CaseFault::Refused(Refusal { file, code, at })
}

/// A text's fault as what it is to a command.
pub(crate) fn text_refused(file: FileName, fault: TextFault) -> CaseFault
    ensures { result ≡ text_fault file fault }
{
    match fault {
        TextFault::BadByte(at) => refused(file, Code::T01, at),
        TextFault::StrayClose(at) => refused(file, Code::T02, at),
        TextFault::TooDeep(at) => refused(file, Code::T03, at),
        TextFault::Unclosed(at) => refused(file, Code::T04, at),
        TextFault::WordTooLong(at) => refused(file, Code::T05, at),
        TextFault::NotOneList(at) => refused(file, Code::T06, at),
        TextFault::Memory => CaseFault::Memory,
    }
}

/// A reading's fault as what it is to a command.
pub(crate) fn read_refused(file: FileName, fault: ReadFault) -> CaseFault
    ensures { result ≡ read_fault file fault }
{
    match fault {
        ReadFault::Refused { code, at } => refused(file, code, at),
        ReadFault::Memory => CaseFault::Memory,
    }
}

/// A fault of a plan's text as what it is to a command.
pub(crate) fn plan_refused(fault: PlanFault) -> CaseFault
    ensures { result ≡ plan_fault fault }
{
    match fault {
        PlanFault::BadLine(line) => refused(FileName::Plan, Code::L01, line),
        PlanFault::TooManySteps(line) => refused(FileName::Plan, Code::L02, line),
        PlanFault::Memory => CaseFault::Memory,
    }
}

/// A fault of a plan's steps as what it is to a command.
pub(crate) fn exec_refused(fault: ExecFault) -> CaseFault
    ensures { result ≡ exec_fault fault }
{
    match fault {
        ExecFault::Step(step, code) => refused(FileName::Plan, code, step.0),
        ExecFault::GridTooFine => refused(FileName::Plan, Code::X10, 0),
        ExecFault::TimeTooLarge(step) => refused(FileName::Plan, Code::X11, step.0),
        ExecFault::Memory => CaseFault::Memory,
    }
}

/// A fault of grounding as what it is to a command.
pub(crate) fn ground_refused(fault: GroundFault) -> CaseFault
    ensures { result ≡ ground_fault fault }
{
    match fault {
        GroundFault::TooManyBindings => refused(FileName::Task, Code::G01, 0),
        GroundFault::TooManyActions => refused(FileName::Task, Code::G02, 0),
        GroundFault::TooManyAtoms => refused(FileName::Task, Code::G03, 0),
        GroundFault::TooManyNodes => refused(FileName::Task, Code::G04, 0),
        GroundFault::DurationTooLarge(action) => refused(FileName::Task, Code::G05, action.0),
        GroundFault::GridTooFine => refused(FileName::Task, Code::G06, 0),
        GroundFault::UncontrollableEvent => refused(FileName::Task, Code::G07, 0),
        GroundFault::Memory => CaseFault::Memory,
    }
}
