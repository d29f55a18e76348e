//! The lines of a text.

ghost use Rattle.std.specs.Prelude.{◌≡◌, ◌≤◌, ◌+◌, ◌==◌, length, map, All, IfOk};
ghost use Rattle.std.specs.List.{position_or_len, prefix_len};
ghost use Rattle.stp_base.specs.declared.limits.TheConstants.{MAX_FILE_BYTES};
ghost use Rattle.stp_text.specs.Bytes.{is_white};
ghost use Rattle.stp_plan.specs.Lines.{lines_of, before_comment, trim_end, line_text, texts_of, place_of, places_of, text_at};

use std::alloc::Global;
use stp_base::{List, Memory};
use stp_text::is_white;

/// Where a line stands: its bytes from one place up to another.
#[derive(Clone, Copy, Debug, PartialEq, Eq)]
pub struct Line {
    /// The place of its first byte.
    pub from: u32,
    /// The place after its last byte.
    pub to: u32,
}

/// Where a byte first is; the length where it is not.
pub(crate) fn place_of_byte(text: &[u8], byte: u8) -> usize
    ensures value { result ≡ position_or_len (λ b. b == byte) text.now }
    ensures within { result ≤ length text.now }
{
    for (place, other) in text.iter().enumerate() {
        if *other == byte {
            return place;
        }
    }
    text.len()
}

/// How many white bytes a text begins with.
pub(crate) fn white_length(text: &[u8]) -> usize
    ensures value { result ≡ prefix_len is_white text.now }
    ensures within { result ≤ length text.now }
{
    for (place, byte) in text.iter().enumerate() {
        if !is_white(*byte) {
            return place;
        }
    }
    text.len()
}

/// A line up to its comment.
fn before_comment(line: &[u8]) -> &[u8]
    ensures { result.now ≡ before_comment line.now }
{
    &line[..place_of_byte(line, b';')]
}

/// How long a text is up to its last byte that is not white.
fn black_length(text: &[u8]) -> usize
    ensures value { result ≡ length (trim_end text.now) }
    ensures within { result ≤ length text.now }
{
    let mut end = text.len();
    while end > 0 && is_white(text[end - 1]) {
        end -= 1;
    }
    end
}

/// The place of a line that begins at a place, without its comment and its white ends.
fn line_at(at: usize, line: &[u8]) -> Line
    requires { at + length line.now ≤ MAX_FILE_BYTES }
    ensures { result ≡ place_of at line.now }
{
    let text = before_comment(line);
    let start = white_length(text);
    let from = at + start;
    Line {
        from: from as u32,
        to: (from + black_length(&text[start..])) as u32,
    }
}

/// The lines of a text of at most 1,048,576 bytes in order, each without its comment and without white bytes at its
/// ends. After a last line feed there is no further line.
pub fn lines(alloc: Global, bytes: &[u8]) -> Result<List<Line>, Memory>
    requires { length bytes.now ≤ MAX_FILE_BYTES }
    ensures value { IfOk result (λ found. found ≡ places_of 0 (lines_of bytes.now)) }
    ensures texts { IfOk result (λ found. map (text_at bytes.now) found ≡ texts_of bytes.now) }
    ensures within { IfOk result (λ found. All (λ line. (line.from ≤ line.to) × (line.to ≤ length bytes.now)) found) }
    ensures few { IfOk result (λ found. length found ≤ length bytes.now) }
{
    let mut found = List::new(alloc);
    let mut at = 0;
    while at < bytes.len() {
        let rest = &bytes[at..];
        let end = place_of_byte(rest, b'\n');
        found.push(line_at(at, &rest[..end]))?;
        at += end + 1;
    }
    Ok(found)
}
