//! What the bytes of a line are.

ghost use Rattle.std.specs.Prelude.{◌≡◌};
ghost use Rattle.stp_plan.specs.Parts.{is_run_byte};

use stp_text::is_white;

/// Whether a byte may stand in a run.
pub(crate) fn is_run_byte(byte: u8) -> bool
    ensures { result ≡ is_run_byte byte }
{
    !(is_white(byte) || matches!(byte, b':' | b'(' | b')' | b'[' | b']'))
}
