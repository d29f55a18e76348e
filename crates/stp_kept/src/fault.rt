//! Why a problem has no task.

ghost use Rattle.std.specs.Prelude.{◌≡◌};
ghost use Rattle.stp_kept.specs.declared.fault.GroundFault.TheVariants.{Memory as OutOfMemory};

use stp_base::{ActionId, Memory};
use thiserror::Error;

/// Why a problem has no task.
#[derive(Clone, Copy, Debug, PartialEq, Eq, Error)]
pub enum GroundFault {
    /// The environment chooses the time of an event.
    #[error("uncontrollable event")]
    UncontrollableEvent,
    /// The schemas have too many typed bindings.
    #[error("too many bindings")]
    TooManyBindings,
    /// There are too many kept instances.
    #[error("too many actions")]
    TooManyActions,
    /// The conditions of the kept instances' schemas have too many nodes.
    #[error("too many nodes")]
    TooManyNodes,
    /// There are too many fluent atoms.
    #[error("too many atoms")]
    TooManyAtoms,
    /// A kept instance may last too long. It is the first.
    #[error("duration too large")]
    DurationTooLarge(ActionId),
    /// The durations and the times of events have no common denominator that is small enough.
    #[error("grid too fine")]
    GridTooFine,
    /// Want of memory.
    #[error("out of memory")]
    Memory,
}

impl From<Memory> for GroundFault {
    ghost from_gives = { λ _ e. e ≡ OutOfMemory };

    fn from(_error: Memory) -> GroundFault {
        GroundFault::Memory
    }
}
