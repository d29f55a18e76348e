//! Events of the environment as they are written.

ghost use Rattle.std.specs.Prelude.{◌≡◌, option_map, bytes_eq, codes};
ghost use Rattle.stp_text.specs.Tree.{view, views};
ghost use Rattle.stp_problem.specs.Written.{denied_part, literal_by, literal_in, are_literals, literals_in, is_and, joined_in, effect_in, told, timed_parts, window_parts, timed_written, window_written, list_written, written};
ghost use Rattle.stp_problem.specs.Views.{call_view, literal_view, window_view, written_view};

use crate::call::{Call, call_of};
use crate::window::{Window, window_in};
use stp_condition::{Key, key_of};
use stp_refusal::Code;
use stp_text::{Sexpr, first_of, only};

/// An atom, and whether it is added or deleted.
#[derive(Clone, Copy)]
pub struct WrittenLiteral<'a> {
    pub adds: bool,
    pub call: Call<'a>,
}

/// What an item tells of an event: nothing, something wrong, or when it comes and its literals.
#[derive(Clone, Copy)]
pub enum Telling<'a> {
    Other,
    Wrong(Code),
    Event(Window, &'a [Sexpr<'a>]),
}

/// The atom in `(not ATOM)`, behind its first word.
pub fn denied_part<'a>(items: &'a [Sexpr<'a>]) -> Option<Call<'a>>
    ensures { denied_part (views items.now) ≡ option_map call_view result }
{
    let item = only(items)?;
    let call = call_of(item)?;
    Some(call)
}

/// The literal that is a list which begins with a word of this key.
fn literal_by<'a>(
    key: Key,
    items: &'a [Sexpr<'a>],
    tree: &'a Sexpr<'a>,
) -> Option<WrittenLiteral<'a>>
    ensures { literal_by key (views items.now) (view tree.now) ≡ option_map literal_view result }
{
    match key {
        Key::Not => {
            let call = denied_part(items)?;
            Some(WrittenLiteral { adds: false, call })
        }
        _ => {
            let call = call_of(tree)?;
            Some(WrittenLiteral { adds: true, call })
        }
    }
}

/// The literal `ATOM` or `(not ATOM)`.
pub fn literal_in<'a>(tree: &'a Sexpr<'a>) -> Option<WrittenLiteral<'a>>
    ensures { literal_in (view tree.now) ≡ option_map literal_view result }
{
    let (name, items) = tree.keyed()?;
    let literal = literal_by(key_of(name), items, tree)?;
    Some(literal)
}

/// Whether all items are literals.
fn are_literals<'a>(items: &'a [Sexpr<'a>]) -> bool
    ensures { result ≡ are_literals (views items.now) }
{
    for item in items {
        if literal_in(item).is_none() {
            return false;
        }
    }
    true
}

/// The items, if all are literals.
fn literals_in<'a>(items: &'a [Sexpr<'a>]) -> Option<&'a [Sexpr<'a>]>
    ensures { literals_in (views items.now) ≡ option_map (λ r. views r.now) result }
{
    if !are_literals(items) {
        return None;
    }
    Some(items)
}

/// Whether a word of this key is `and`.
fn is_and(key: Key) -> bool
    ensures { result ≡ is_and key }
{
    match key {
        Key::And => true,
        _ => false,
    }
}

/// The literals of the one item `(and LITERAL*)`.
fn joined_in<'a>(items: &'a [Sexpr<'a>]) -> Option<&'a [Sexpr<'a>]>
    ensures { joined_in (views items.now) ≡ option_map (λ r. views r.now) result }
{
    let item = only(items)?;
    let (name, parts) = item.keyed()?;
    if !is_and(key_of(name)) {
        return None;
    }
    let literals = literals_in(parts)?;
    Some(literals)
}

/// The literals of one item, which is a literal or `(and LITERAL*)`.
fn effect_in<'a>(items: &'a [Sexpr<'a>]) -> Option<&'a [Sexpr<'a>]>
    ensures { effect_in (views items.now) ≡ option_map (λ r. views r.now) result }
{
    match literals_in(items) {
        Some(literals) => Some(literals),
        None => joined_in(items),
    }
}

/// What is written with two bounds and these literals.
fn told<'a>(window: Option<Window>, literals: Option<&'a [Sexpr<'a>]>) -> Option<Telling<'a>>
    ensures { told (option_map window_view window) (option_map (λ r. views r.now) literals.entry) ≡ option_map written_view result }
{
    let window = window?;
    let literals = literals?;
    Some(Telling::Event(window, literals))
}

/// The time in `(at TIME LIST)`, behind its first word, and the list as one item.
fn timed_parts<'a>(items: &'a [Sexpr<'a>]) -> Option<(&'a Sexpr<'a>, &'a [Sexpr<'a>])>
    ensures { timed_parts (views items.now) ≡ option_map (λ r. (view r.0.now, views r.1.now)) result }
{
    let (first, rest) = first_of(items)?;
    let last = only(rest)?;
    let _inner = last.items()?;
    Some((first, rest))
}

/// The bounds in `(between LOW HIGH LIST)`, behind its first word, and the list as one item.
fn window_parts<'a>(
    items: &'a [Sexpr<'a>],
) -> Option<(&'a Sexpr<'a>, &'a Sexpr<'a>, &'a [Sexpr<'a>])>
    ensures { window_parts (views items.now) ≡ option_map (λ r. (view r.0.now, view r.1.now, views r.2.now)) result }
{
    let (low, behind) = first_of(items)?;
    let (high, rest) = timed_parts(behind)?;
    Some((low, high, rest))
}

/// What `(at TIME LIST)` tells.
fn timed_written<'a>(time: &Sexpr<'a>, effect: &'a [Sexpr<'a>]) -> Telling<'a>
    ensures { written_view result ≡ timed_written (view time.now, views effect.now) }
{
    match told(window_in(time, time), literals_in(effect)) {
        Some(written) => written,
        None => Telling::Wrong(Code::P12),
    }
}

/// What `(between LOW HIGH LIST)` tells.
fn window_written<'a>(low: &Sexpr<'a>, high: &Sexpr<'a>, effect: &'a [Sexpr<'a>]) -> Telling<'a>
    ensures { written_view result ≡ window_written (view low.now, view high.now, views effect.now) }
{
    match told(window_in(low, high), effect_in(effect)) {
        Some(written) => written,
        None => Telling::Wrong(Code::P16),
    }
}

/// What a list tells that begins with this word.
pub fn list_written<'a>(name: &[u8], items: &'a [Sexpr<'a>]) -> Telling<'a>
    ensures { written_view result ≡ list_written name.now (views items.now) }
{
    if name == b"at".as_slice() {
        return match timed_parts(items) {
            Some((time, effect)) => timed_written(time, effect),
            None => Telling::Other,
        };
    }
    if name == b"between".as_slice() {
        return match window_parts(items) {
            Some((low, high, effect)) => window_written(low, high, effect),
            None => Telling::Other,
        };
    }
    Telling::Other
}

/// What an item of `:init` tells of an event.
pub fn written<'a>(tree: &'a Sexpr<'a>) -> Telling<'a>
    ensures { written_view result ≡ written (view tree.now) }
{
    match tree.keyed() {
        Some((name, items)) => list_written(name, items),
        None => Telling::Other,
    }
}
