//! The texts of problems.

ghost use Rattle.std.specs.Prelude.{◌≡◌, ◌≤◌, ◌++◌, codes, IfOk, OnOk};
ghost use Rattle.stp_demo.specs.Pieces.{each, line};
ghost use Rattle.stp_demo.specs.Problem.{
  rover_line,
  place_line,
  rovers_text,
  places_text,
  objects_text,
  road_text,
  time_text,
  fact_line,
  facts_text,
  goal_line,
  goals_text,
  problem_text,
};

use crate::pieces::{fast_time, push_line, slow_time};
use std::alloc::Global;
use stp_base::{Memory, Text};

/// Appends the names of all rovers.
fn push_rover_names(alloc: Global, n: u32, out: &mut Text) -> Result<(), Memory>
    ensures { OnOk result (out.new ≡ out.old ++ each rover_line n) }
{
    for before in 0..n {
        let rover = before + 1;
        let words = format!(in alloc; "r{rover}")?;
        push_line(words.as_str(), out)?;
    }
    Ok(())
}

/// Appends the rovers.
fn push_rovers(alloc: Global, n: u32, out: &mut Text) -> Result<(), Memory>
    ensures { OnOk result (out.new ≡ out.old ++ rovers_text n) }
{
    push_rover_names(alloc, n, out)?;
    push_line("- rover", out)
}

/// Appends the name of a place.
fn push_place(alloc: Global, place: u32, out: &mut Text) -> Result<(), Memory>
    ensures { OnOk result (out.new ≡ out.old ++ place_line place) }
{
    let words = format!(in alloc; "p{place}")?;
    push_line(words.as_str(), out)
}

/// Appends the names of the places of the rovers' own.
fn push_own_places(alloc: Global, n: u32, out: &mut Text) -> Result<(), Memory>
    ensures { OnOk result (out.new ≡ out.old ++ each place_line n) }
{
    for before in 0..n {
        push_place(alloc, before + 1, out)?;
    }
    Ok(())
}

/// Appends the places.
fn push_places(alloc: Global, n: u32, out: &mut Text) -> Result<(), Memory>
    ensures { OnOk result (out.new ≡ out.old ++ places_text n) }
{
    push_place(alloc, 0, out)?;
    push_own_places(alloc, n, out)?;
    push_line("- place)", out)
}

/// Appends the objects.
fn push_objects(alloc: Global, n: u32, out: &mut Text) -> Result<(), Memory>
    ensures { OnOk result (out.new ≡ out.old ++ objects_text n) }
{
    push_line("(:objects", out)?;
    push_rovers(alloc, n, out)?;
    push_places(alloc, n, out)
}

/// Where a rover is at first, and that it can drive to its place.
fn road_words(alloc: Global, number: u32) -> Result<String, Memory>
    ensures { IfOk result (λ s. s.bytes.items ≡ road_text number) }
{
    Ok(format!(in alloc; "(still r{number}) (at r{number} p0) (road p0 p{number})")?)
}

/// A duration of the drive to a place.
fn time_words(alloc: Global, name: &str, number: u32, time: u32) -> Result<String, Memory>
    ensures { IfOk result (λ s. s.bytes.items ≡ time_text name.now number time) }
{
    Ok(format!(in alloc; "(= ({name} p0 p{number}) {time})")?)
}

/// Appends what holds at first of one rover and its place.
fn push_fact(alloc: Global, number: u32, out: &mut Text) -> Result<(), Memory>
    ensures { OnOk result (out.new ≡ out.old ++ fact_line number) }
{
    let road = road_words(alloc, number)?;
    let fast = time_words(alloc, "fast", number, fast_time(number))?;
    let slow = time_words(alloc, "slow", number, slow_time(number))?;
    let words = format!(in alloc; "{road} {fast} {slow}")?;
    push_line(words.as_str(), out)
}

/// Appends what holds at first of all rovers and their places, line by line.
fn push_fact_lines(alloc: Global, n: u32, out: &mut Text) -> Result<(), Memory>
    ensures { OnOk result (out.new ≡ out.old ++ each fact_line n) }
{
    for before in 0..n {
        push_fact(alloc, before + 1, out)?;
    }
    Ok(())
}

/// Appends what holds at first.
fn push_facts(alloc: Global, n: u32, out: &mut Text) -> Result<(), Memory>
    ensures { OnOk result (out.new ≡ out.old ++ facts_text n) }
{
    push_line("(:init", out)?;
    push_fact_lines(alloc, n, out)?;
    push_line(")", out)
}

/// Appends that each place of the rovers' own is to be seen, line by line.
fn push_goal_lines(alloc: Global, n: u32, out: &mut Text) -> Result<(), Memory>
    ensures { OnOk result (out.new ≡ out.old ++ each goal_line n) }
{
    for before in 0..n {
        let place = before + 1;
        let words = format!(in alloc; "(seen p{place})")?;
        push_line(words.as_str(), out)?;
    }
    Ok(())
}

/// Appends the goal, and the problem's end.
fn push_goals(alloc: Global, n: u32, out: &mut Text) -> Result<(), Memory>
    ensures { OnOk result (out.new ≡ out.old ++ goals_text n) }
{
    push_line("(:goal (and", out)?;
    push_goal_lines(alloc, n, out)?;
    push_line(")))", out)
}

/// The text of the problem of so many rovers, each with a place of its own to see.
pub fn demo_problem(alloc: Global, n: u32) -> Result<Text, Memory>
    requires least { 1 ≤ n }
    requires most { n ≤ 250 }
    ensures { IfOk result (λ t. t ≡ problem_text n) }
{
    let mut text = Text::new(alloc);
    push_line("(define (problem demo) (:domain rover)", &mut text)?;
    push_objects(alloc, n, &mut text)?;
    push_facts(alloc, n, &mut text)?;
    push_goals(alloc, n, &mut text)?;
    Ok(text)
}
