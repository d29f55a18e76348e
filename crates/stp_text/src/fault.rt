//! Why a text is refused.

ghost use Rattle.std.specs.Prelude.{◌≡◌};
ghost use Rattle.stp_text.specs.declared.fault.TextFault.TheVariants.{Memory as OutOfMemory};

use std::alloc::AllocError;
use stp_base::Memory;
use thiserror::Error;

/// Why a text is refused, with the offset of a byte. Their codes are T01 to T06.
#[derive(Clone, Copy, Debug, PartialEq, Eq, Error)]
pub enum TextFault {
    /// T01: a byte outside comments that is neither white nor visible.
    #[error("T01 {0}: a byte that is no text")]
    BadByte(u32),
    /// T02: a `)` without a `(`.
    #[error("T02 {0}: a `)` without a `(`")]
    StrayClose(u32),
    /// T03: a `(` inside of 100 lists.
    #[error("T03 {0}: lists nested too deeply")]
    TooDeep(u32),
    /// T04: the last `(` that has no `)`.
    #[error("T04 {0}: a `(` without a `)`")]
    Unclosed(u32),
    /// T05: a word of more than 100 bytes.
    #[error("T05 {0}: a word that is too long")]
    WordTooLong(u32),
    /// T06: the first item that makes the text something else than one list, or the length of an empty text.
    #[error("T06 {0}: not exactly one list")]
    NotOneList(u32),
    /// Want of memory.
    #[error("out of memory")]
    Memory,
}

impl From<Memory> for TextFault {
    ghost from_gives = { λ _ e. e ≡ OutOfMemory };

    fn from(_error: Memory) -> TextFault {
        TextFault::Memory
    }
}

impl From<AllocError> for TextFault {
    ghost from_gives = { λ _ e. e ≡ OutOfMemory };

    fn from(_error: AllocError) -> TextFault {
        TextFault::Memory
    }
}
