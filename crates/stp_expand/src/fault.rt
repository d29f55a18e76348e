//! Why a condition is not expanded.

ghost use Rattle.std.specs.Prelude.{◌≡◌};
ghost use Rattle.stp_expand.specs.declared.fault.ExpandFault.TheVariants.{Memory as OutOfMemory};

use std::alloc::AllocFailed;
use stp_base::Memory;
use thiserror::Error;

/// Why a condition is not expanded.
#[derive(Clone, Copy, Debug, PartialEq, Eq, Error)]
pub enum ExpandFault {
    /// A formula that is no conjunction has more footprints than the limit.
    #[error("too many footprints")]
    TooManyFootprints,
    /// Want of memory.
    #[error("out of memory")]
    Memory,
}

impl From<Memory> for ExpandFault {
    ghost from_gives = { λ _ e. e ≡ OutOfMemory };

    fn from(_error: Memory) -> ExpandFault {
        ExpandFault::Memory
    }
}

impl<T: Drop> From<AllocFailed<T>> for ExpandFault {
    ghost from_gives = { λ _ e. e ≡ OutOfMemory };

    fn from(_error: AllocFailed<T>) -> ExpandFault {
        ExpandFault::Memory
    }
}
