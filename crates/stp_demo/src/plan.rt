//! The texts of plans.

ghost use Rattle.std.specs.Prelude.{◌≡◌, ◌≤◌, ◌++◌, IfOk, OnOk};
ghost use Rattle.stp_demo.specs.Pieces.{each};
ghost use Rattle.stp_demo.specs.Plan.{drive_line, photo_start, photo_line, steps_text, plan_text};

use crate::pieces::{push_line, slow_time};
use std::alloc::Global;
use stp_base::{Memory, Text};

/// Appends the step in which a rover drives to its place.
fn push_drive(alloc: Global, rover: u32, out: &mut Text) -> Result<(), Memory>
    ensures { OnOk result (out.new ≡ out.old ++ drive_line rover) }
{
    let words = format!(in alloc; "0: (drive r{rover} p0 p{rover}) [*]")?;
    push_line(words.as_str(), out)
}

/// When a rover takes its photo: where that is to be too early, half a unit before its drive has surely ended.
fn photo_start(alloc: Global, rover: u32, early: bool) -> Result<String, Memory>
    ensures { IfOk result (λ s. s.bytes.items ≡ photo_start early rover) }
{
    if early {
        let halves = 2 * slow_time(rover) - 1;
        return Ok(format!(in alloc; "{halves}/2")?);
    }
    Ok(format!(in alloc; "10")?)
}

/// Appends the step in which a rover takes its photo.
fn push_photo(alloc: Global, rover: u32, early: bool, out: &mut Text) -> Result<(), Memory>
    ensures { OnOk result (out.new ≡ out.old ++ photo_line early rover) }
{
    let start = photo_start(alloc, rover, early)?;
    let words = format!(in alloc; "{start}: (photo r{rover} p{rover}) [2]")?;
    push_line(words.as_str(), out)
}

/// Appends the steps of a rover.
fn push_steps(alloc: Global, rover: u32, early: bool, out: &mut Text) -> Result<(), Memory>
    ensures { OnOk result (out.new ≡ out.old ++ steps_text early rover) }
{
    push_drive(alloc, rover, out)?;
    push_photo(alloc, rover, early, out)
}

/// The text of the plan for the problem of so many rovers, in which each drives to its place and takes its photo. In
/// the spoiled plan the last photo may come too early.
pub fn demo_plan(alloc: Global, n: u32, spoiled: bool) -> Result<Text, Memory>
    requires least { 1 ≤ n }
    requires most { n ≤ 250 }
    ensures { IfOk result (λ t. t ≡ plan_text spoiled n) }
{
    let mut text = Text::new(alloc);
    for before in 0..n {
        let rover = before + 1;
        push_steps(alloc, rover, spoiled && rover == n, &mut text)?;
    }
    Ok(text)
}
