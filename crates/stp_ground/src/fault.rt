//! Why a name and arguments choose no action.

ghost use Rattle.std.specs.Prelude.{◌≡◌};
ghost use Rattle.stp_ground.specs.declared.fault.InstanceFault.TheVariants.{Memory as OutOfMemory};

use stp_base::Memory;
use thiserror::Error;

/// Why a name and arguments choose no action.
#[derive(Clone, Copy, Debug, PartialEq, Eq, Error)]
pub enum InstanceFault {
    /// No schema has the name.
    #[error("unknown action")]
    UnknownAction,
    /// There are not as many arguments as parameters.
    #[error("wrong number of arguments")]
    WrongCount,
    /// An argument is no object.
    #[error("unknown object")]
    UnknownObject,
    /// An argument is of another type than its parameter.
    #[error("wrong type")]
    WrongType,
    /// A bound of the duration has no value, or the bounds are not lawful.
    #[error("no duration")]
    NoDuration,
    /// Want of memory.
    #[error("out of memory")]
    Memory,
}

impl From<Memory> for InstanceFault {
    ghost from_gives = { λ _ e. e ≡ OutOfMemory };

    fn from(_error: Memory) -> InstanceFault {
        InstanceFault::Memory
    }
}
