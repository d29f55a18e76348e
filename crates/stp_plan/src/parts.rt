//! The parts of a text.

ghost use Rattle.std.specs.Prelude.{◌≡◌, ◌≤◌, ◌<◌, length, IsTrue, IfSome, option_map, slice_index, false};
ghost use Rattle.std.specs.List.{list_all, prefix_len};
ghost use Rattle.stp_text.specs.Bytes.{is_white};
ghost use Rattle.stp_plan.specs.Parts.{is_mark, is_run_byte, parts, after, first_run};
ghost use Rattle.stp_plan.specs.Views.{view_run};

use crate::bytes::is_run_byte;
use crate::line::white_length;
use stp_text::is_white;

/// How many bytes of a run a text begins with.
fn run_length(text: &[u8]) -> usize
    ensures value { result ≡ prefix_len is_run_byte text.now }
    ensures within { result ≤ length text.now }
{
    for (place, byte) in text.iter().enumerate() {
        if !is_run_byte(*byte) {
            return place;
        }
    }
    text.len()
}

/// Whether all bytes of a text are white.
pub(crate) fn is_blank(text: &[u8]) -> bool
    ensures { result ≡ list_all is_white text.now }
{
    text.iter().all(|byte| is_white(*byte))
}

/// A text from its first byte on that is not white.
fn trimmed(text: &[u8]) -> &[u8]
    ensures parts { parts result.now ≡ parts text.now }
    ensures black { 0 < length result.now → is_white (slice_index result.now 0) ≡ false }
    ensures len { length result.now ≤ length text.now }
{
    &text[white_length(text)..]
}

/// What follows a byte that is a part by itself, where a text's parts begin with it.
pub(crate) fn mark(text: &[u8], byte: u8) -> Option<&[u8]>
    requires { IsTrue (is_mark byte) }
    ensures { option_map (λ rest. parts rest.now) result ≡ after byte (parts text.now) }
{
    let (first, rest) = trimmed(text).split_first()?;
    if *first != byte {
        return None;
    }
    Some(rest)
}

/// The run of bytes that a text's parts begin with, and what follows it.
pub(crate) fn run(text: &[u8]) -> Option<(&[u8], &[u8])>
    ensures value { option_map view_run result ≡ first_run (parts text.now) }
    ensures shorter { IfSome result (λ r. length r.1.now < length text.now) }
{
    let text = trimmed(text);
    let end = run_length(text);
    if end == 0 {
        return None;
    }
    Some(text.split_at(end))
}
