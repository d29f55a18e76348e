//! Whole files.

ghost use Rattle.std.specs.Prelude.{◌≡◌, ◌≤◌, ℕ, List, length, true, false, Some, Err, IfOk, IfSome};
ghost use Rattle.stp_base.specs.declared.limits.TheConstants.{MAX_FILE_BYTES};
ghost use Rattle.stp_io.specs.Store.{HasRisen, IsTooLong};
ghost use Rattle.stp_io.specs.declared.loading.LoadFault.TheVariants.{Memory as OutOfMemory};

use crate::store::{Failed, Store};
use std::alloc::Global;
use stp_base::limits::MAX_FILE_BYTES;
use stp_base::{Memory, Text};
use thiserror::Error;

/// Why a file was not loaded.
#[derive(Clone, Copy, Debug, PartialEq, Eq, Error)]
pub enum LoadFault {
    /// A read failed.
    #[error("a read failed")]
    ReadFault,
    /// The file is longer than a file may be.
    #[error("the file is too long")]
    TooLong,
    /// Memory was refused.
    #[error("out of memory")]
    Memory,
}

impl From<Memory> for LoadFault {
    ghost from_gives = { λ _ fault. fault ≡ OutOfMemory };

    fn from(_memory: Memory) -> LoadFault {
        LoadFault::Memory
    }
}

/// How many bytes are asked for in a read.
const BUFFER_BYTES: usize = 16_384;

/// The whole file of a name, which has 1,048,576 bytes at most.
pub fn load<S: Store>(alloc: Global, store: &mut S, name: &str) -> Result<Text, LoadFault>
    ensures text { IfOk result (λ t. IfSome (S.files store.old) (λ f. f name.now ≡ Some t)) }
    ensures limit { IfOk result (λ t. length t ≤ MAX_FILE_BYTES) }
    ensures too_long { result ≡ Err LoadFault.TooLong → IfSome (S.files store.old) (λ f. IsTooLong (f name.now)) }
    ensures counted { result ≡ Err LoadFault.ReadFault → HasRisen (S.faults store.old) (S.faults store.new) }
    ensures unsteady { result ≡ Err LoadFault.ReadFault → S.steady store.old name.now ≡ false }
    ensures files { S.files store.new ≡ S.files store.old }
    ensures steady { (n : List ℕ) → S.steady store.old n ≡ true → S.steady store.new n ≡ true }
    ensures counts { S.faults store.old ≤ S.faults store.new }
{
    let mut text = Text::new(alloc);
    let mut buffer = [0u8; BUFFER_BYTES];
    loop {
        let length = text.as_slice().len();
        let wanted = BUFFER_BYTES.min(MAX_FILE_BYTES + 1 - length);
        match store.read_at(name, length as u64, &mut buffer[..wanted]) {
            Err(Failed) => return Err(LoadFault::ReadFault),
            Ok(0) => return Ok(text),
            Ok(count) => {
                if length + count > MAX_FILE_BYTES {
                    return Err(LoadFault::TooLong);
                }
                text.push(&buffer[..count])?;
            }
        }
    }
}
