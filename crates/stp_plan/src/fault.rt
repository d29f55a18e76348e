//! Why a plan is refused.

ghost use Rattle.std.specs.Prelude.{◌≡◌};
ghost use Rattle.stp_plan.specs.declared.fault.PlanFault.TheVariants.{Memory as OutOfMemory};

use stp_base::Memory;
use thiserror::Error;

/// Why a plan is refused, with the number of a line, counted from 1. Their codes are L01 and L02.
#[derive(Clone, Copy, Debug, PartialEq, Eq, Error)]
pub enum PlanFault {
    /// L01: the first line that is neither empty nor a step.
    #[error("L01 {0}: a line that is no step")]
    BadLine(u32),
    /// L02: the line of the 501st step.
    #[error("L02 {0}: too many steps")]
    TooManySteps(u32),
    /// Want of memory.
    #[error("out of memory")]
    Memory,
}

impl From<Memory> for PlanFault {
    ghost from_gives = { λ _ e. e ≡ OutOfMemory };

    fn from(_error: Memory) -> PlanFault {
        PlanFault::Memory
    }
}
