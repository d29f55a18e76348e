//! Pieces of texts.

ghost use Rattle.std.specs.Prelude.{◌≡◌, ◌++◌, OnOk};
ghost use Rattle.stp_demo.specs.Pieces.{line, fast, slow};

use stp_base::{Memory, Text};

/// Appends a line.
pub fn push_line(words: &str, out: &mut Text) -> Result<(), Memory>
    ensures { OnOk result (out.new ≡ out.old ++ line words.now) }
{
    out.push(words.as_bytes())?;
    out.push(b"\n")
}

/// The least duration of the drive to a place.
pub fn fast_time(place: u32) -> u32
    ensures { result ≡ fast place }
{
    place % 3 + 1
}

/// The greatest duration of the drive to a place.
pub fn slow_time(place: u32) -> u32
    ensures { result ≡ slow place }
{
    place % 5 + 5
}
