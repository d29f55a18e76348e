//! The forms of timed conditions.

ghost use Rattle.std.specs.Prelude.{◌≡◌, option_map};
ghost use Rattle.stp_text.specs.Tree.{view, views};
ghost use Rattle.stp_condition.specs.Forms.{form_of, span_named, span_of, part_in};

use crate::{Key, key_of};
use stp_text::Sexpr;

/// What a list is as a timed condition, by its first word.
#[derive(Clone, Copy, Debug, PartialEq, Eq)]
pub enum Form {
    And,
    /// A word of no connective.
    Timed,
    Equality,
    /// A comparison of numbers or a preference.
    Unsupported,
    /// No timed condition.
    Malformed,
}

/// The form of a list that begins with this word.
pub fn form_of(word: &[u8]) -> Form
    ensures { result ≡ form_of word.now }
{
    match key_of(word) {
        Key::And => Form::And,
        Key::Symbol => Form::Timed,
        Key::Equal => Form::Equality,
        Key::Comparison => Form::Unsupported,
        Key::Preference => Form::Unsupported,
        Key::Not => Form::Malformed,
        Key::Or => Form::Malformed,
        Key::Imply => Form::Malformed,
        Key::Forall => Form::Malformed,
        Key::Exists => Form::Malformed,
        Key::When => Form::Malformed,
        Key::Change => Form::Malformed,
        Key::Arithmetic(_) => Form::Malformed,
    }
}

/// When a condition must hold.
#[derive(Clone, Copy, Debug, PartialEq, Eq)]
pub enum Span {
    Start,
    OverAll,
    End,
}

/// The span that two words name: `at start`, `over all` or `at end`.
fn span_named(word: &[u8], other: &[u8]) -> Option<Span>
    ensures { result ≡ span_named word.now other.now }
{
    if word == b"at".as_slice() {
        if other == b"start".as_slice() {
            Some(Span::Start)
        } else if other == b"end".as_slice() {
            Some(Span::End)
        } else {
            None
        }
    } else if word == b"over".as_slice() && other == b"all".as_slice() {
        Some(Span::OverAll)
    } else {
        None
    }
}

/// The span that a word and an item behind it name.
fn span_of(word: &[u8], tree: &Sexpr<'_>) -> Option<Span>
    ensures { result ≡ span_of word.now (view tree.now) }
{
    match tree {
        Sexpr::Word { text, .. } => span_named(word, text),
        Sexpr::Items { .. } => None,
    }
}

/// The span and the condition of `(at start CONDITION)`, `(over all CONDITION)` or `(at end CONDITION)`, by its first
/// word and the items behind it.
pub fn part_in<'a>(word: &[u8], items: &'a [Sexpr<'a>]) -> Option<(Span, &'a Sexpr<'a>)>
    ensures { part_in word.now (views items.now) ≡ option_map (λ r. (r.0, view r.1.now)) result }
{
    let [span, condition] = items else {
        return None;
    };
    let span = span_of(word, span)?;
    Some((span, condition))
}
