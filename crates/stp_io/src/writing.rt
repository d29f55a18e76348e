//! Whole texts.

ghost use Rattle.std.specs.Prelude.{◌≡◌, ◌≤◌, ◌++◌, ℕ, length, take, option_map, OnOk, OnErr};
ghost use Rattle.stp_io.specs.Store.{HasRisen};

use crate::sink::Sink;
use crate::store::Failed;

/// Writes a whole text; where a call fails, what was written is a front of it, and it is not begun again.
pub fn write_all<K: Sink>(sink: &mut K, text: &[u8]) -> Result<(), Failed>
    ensures written { OnOk result (K.written sink.new ≡ option_map (λ w. w ++ text.now) (K.written sink.old)) }
    ensures front { OnErr result ((n : ℕ) × (n ≤ length text.now) × (K.written sink.new ≡ option_map (λ w. w ++ take n text.now) (K.written sink.old))) }
    ensures counted { OnErr result (HasRisen (K.faults sink.old) (K.faults sink.new)) }
    ensures counts { K.faults sink.old ≤ K.faults sink.new }
{
    let mut done = 0;
    while done < text.len() {
        match sink.write(&text[done..]) {
            Ok(count) => done += count,
            Err(Failed) => return Err(Failed),
        }
    }
    Ok(())
}
