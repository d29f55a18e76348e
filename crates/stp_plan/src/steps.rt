//! The steps of a plan.

ghost use Rattle.std.specs.Prelude.{◌≡◌, ◌≤◌, IfOk, length, option_map};
ghost use Rattle.std.specs.List.{position_or_len};
ghost use Rattle.stp_plan.specs.Parts.{parts};
ghost use Rattle.stp_plan.specs.Steps.{time_of, is_star, is_comma, inside, bracket_of, step_of};
ghost use Rattle.stp_plan.specs.Views.{view_time, plain_bracket, plain_step};

use crate::atoms::atom;
use crate::line::place_of_byte;
use crate::numbers::plain_number;
use crate::parts::{is_blank, mark, run};
use std::alloc::Global;
use stp_base::{List, Memory, Text};
use stp_frac::Frac;

/// What stands in a step's bracket.
#[derive(Clone, Copy, Debug, PartialEq, Eq)]
pub enum Bracket {
    /// There is no bracket.
    Absent,
    /// A number.
    Number(Frac),
    /// `*`.
    Star,
    /// Two numbers.
    Pair(Frac, Frac),
}

/// A step of a plan.
#[derive(Drop)]
pub struct Step {
    /// When it starts.
    pub at: Frac,
    /// Its name in lower case.
    pub name: Text,
    /// The names of its arguments in lower case.
    pub args: List<Text>,
    /// What its bracket says of its duration.
    pub bracket: Bracket,
}

/// A plan.
#[derive(Drop)]
pub struct Plan {
    /// Its steps in order.
    pub steps: List<Step>,
}

/// The number before the `:` that a text begins with, and what follows it.
fn read_time(text: &[u8]) -> Option<(Frac, &[u8])>
    ensures { option_map view_time result ≡ time_of (parts text.now) }
{
    let (word, rest) = run(text)?;
    let rest = mark(rest, b':')?;
    Some((plain_number(word)?, rest))
}

/// Whether a word is `*`.
fn is_star(word: &[u8]) -> bool
    ensures { result ≡ is_star word.now }
{
    matches!(word, [b'*'])
}

/// What a bracket's word says.
fn read_inside(word: &[u8]) -> Option<Bracket>
    ensures { option_map plain_bracket result ≡ inside word.now }
{
    if is_star(word) {
        return Some(Bracket::Star);
    }
    let comma = place_of_byte(word, b',');
    if comma == word.len() {
        return Some(Bracket::Number(plain_number(word)?));
    }
    let low = plain_number(&word[..comma])?;
    let high = plain_number(&word[comma + 1..])?;
    Some(Bracket::Pair(low, high))
}

/// The bracket that a text is, if it is one or nothing.
fn read_bracket(text: &[u8]) -> Option<Bracket>
    ensures { option_map plain_bracket result ≡ bracket_of (parts text.now) }
{
    if is_blank(text) {
        return Some(Bracket::Absent);
    }
    let rest = mark(text, b'[')?;
    let (word, rest) = run(rest)?;
    let rest = mark(rest, b']')?;
    if !is_blank(rest) {
        return None;
    }
    read_inside(word)
}

/// The step that a text spells, if it is one.
#[tactic(auto, unfolding(crate::specs::Steps::step_of))]
pub(crate) fn read_step(alloc: Global, text: &[u8]) -> Result<Option<Step>, Memory>
    ensures { IfOk result (λ r. option_map plain_step r ≡ step_of text.now) }
{
    let Some((at, rest)) = read_time(text) else {
        return Ok(None);
    };
    let Some((named, rest)) = atom(alloc, rest)? else {
        return Ok(None);
    };
    let Some(bracket) = read_bracket(rest) else {
        return Ok(None);
    };
    Ok(Some(Step {
        at,
        name: named.name,
        args: named.args,
        bracket,
    }))
}
