//! Pieces of texts.

ghost use Rattle.std.specs.Prelude.{◌≡◌, ◌++◌, OnOk};
ghost use Rattle.std.specs.Fmt.{decimal};
ghost use Rattle.stp_report.specs.Texts.{time_text};
ghost use Rattle.stp_report.specs.Bounds.{IsGrid, IsTime};

use std::alloc::Global;
use stp_base::{Memory, Text};
use stp_frac::Frac;

/// Appends words.
pub fn push_words(words: &str, out: &mut Text) -> Result<(), Memory>
    ensures { OnOk result (out.new ≡ out.old ++ words.now) }
{
    out.push(words.as_bytes())
}

/// Appends a number.
pub fn push_number(alloc: Global, number: u32, out: &mut Text) -> Result<(), Memory>
    ensures { OnOk result (out.new ≡ out.old ++ decimal number) }
{
    let digits = format!(in alloc; "{number}")?;
    out.push(digits.as_bytes())
}

/// Appends a time that is counted on a grid.
pub fn push_time(grid: u128, time: u128, out: &mut Text) -> Result<(), Memory>
    requires grid { IsGrid grid }
    requires time { IsTime grid time }
    ensures { OnOk result (out.new ≡ out.old ++ time_text grid time) }
{
    let Some(value) = Frac::from_grid(time, grid) else {
        unreachable!()
    };
    value.print(out)
}
