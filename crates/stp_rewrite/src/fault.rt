//! Why a task is not rewritten.

ghost use Rattle.std.specs.Prelude.{◌≡◌};
ghost use Rattle.stp_rewrite.specs.declared.fault.RewriteFault.TheVariants.{Memory as OutOfMemory};

use stp_base::{ActionId, Memory};
use thiserror::Error;

/// Why a task is not rewritten.
#[derive(Clone, Copy, Debug, PartialEq, Eq, Error)]
pub enum RewriteFault {
    /// A formula of an over-all condition, which is no conjunction, has too many footprints. The action is the first.
    #[error("too many footprints")]
    TooManyFootprints(ActionId),
    /// The expanded over-all conditions have too many nodes.
    #[error("expansion too large")]
    ExpansionTooLarge,
    /// There are too many requirements of locks.
    #[error("too many blocks")]
    TooManyBlocks,
    /// Want of memory.
    #[error("out of memory")]
    Memory,
}

impl From<Memory> for RewriteFault {
    ghost from_gives = { λ _ e. e ≡ OutOfMemory };

    fn from(_error: Memory) -> RewriteFault {
        RewriteFault::Memory
    }
}
