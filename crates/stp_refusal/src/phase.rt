//! The end of a phase of reading.

ghost use Rattle.std.specs.Prelude.{◌≡◌};
ghost use Rattle.stp_refusal.specs.Phases.{ended};
ghost use Rattle.stp_refusal.specs.declared.phase.ReadFault.TheVariants.{Memory as OutOfMemory};

use crate::code::Code;
use crate::offence::Offence;
use stp_base::Memory;
use thiserror::Error;

/// Why a text was not read.
#[derive(Clone, Copy, Debug, PartialEq, Eq, Error)]
pub enum ReadFault {
    /// The text is refused at a place.
    #[error("refused {code:?} at {at}")]
    Refused { code: Code, at: u32 },
    /// Memory was refused.
    #[error("out of memory")]
    Memory,
}

impl From<Memory> for ReadFault {
    ghost from_gives = { λ _ fault. fault ≡ OutOfMemory };

    fn from(_error: Memory) -> ReadFault {
        ReadFault::Memory
    }
}

/// Ends a phase: refuses the first offence that it found, if it found one.
pub fn end_phase(first: Option<Offence>) -> Result<(), ReadFault>
    ensures { result ≡ ended first }
{
    match first {
        Some(offence) => Err(ReadFault::Refused {
            code: offence.code,
            at: offence.at,
        }),
        None => Ok(()),
    }
}
