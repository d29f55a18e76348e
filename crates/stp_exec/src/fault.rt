//! Why a plan has no box.

ghost use Rattle.std.specs.Prelude.{◌≡◌};
ghost use Rattle.stp_exec.specs.declared.fault.ExecFault.TheVariants.{Memory as OutOfMemory};

use stp_base::{Memory, StepId};
use stp_refusal::Code;
use thiserror::Error;

/// Why a plan has no box.
#[derive(Clone, Copy, Debug, PartialEq, Eq, Error)]
pub enum ExecFault {
    /// A step is refused, by a code from X01 to X09.
    #[error("a step is refused")]
    Step(StepId, Code),
    /// The base grid has more than 999,999,999 moments in a unit of time.
    #[error("the grid is too fine")]
    GridTooFine,
    /// A step starts, or may end, after 999,999,999.
    #[error("a time is too large")]
    TimeTooLarge(StepId),
    /// Want of memory.
    #[error("out of memory")]
    Memory,
}

impl From<Memory> for ExecFault {
    ghost from_gives = { λ _ e. e ≡ OutOfMemory };

    fn from(_error: Memory) -> ExecFault {
        ExecFault::Memory
    }
}
