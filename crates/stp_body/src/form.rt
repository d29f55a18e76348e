//! The forms of effects.

ghost use Rattle.std.specs.Prelude.{◌≡◌, option_map};
ghost use Rattle.stp_text.specs.Tree.{view, views};
ghost use Rattle.stp_body.specs.Forms.{form_of, atom_in, only_atom, moment_of, at_moment};
ghost use Rattle.stp_body.specs.EffectViews.{written_of};

use stp_condition::{Key, key_of};
use stp_text::Sexpr;

/// What a list is as an effect, by its first word.
#[derive(Clone, Copy, Debug, PartialEq, Eq)]
pub enum Form {
    And,
    Not,
    Atom,
    /// A conditional or numeric effect, or one for all objects.
    Unsupported,
    /// No effect.
    Malformed,
}

/// The form of a list that begins with this word.
pub fn form_of(word: &[u8]) -> Form
    ensures { result ≡ form_of word.now }
{
    match key_of(word) {
        Key::And => Form::And,
        Key::Not => Form::Not,
        Key::Symbol => Form::Atom,
        Key::When => Form::Unsupported,
        Key::Forall => Form::Unsupported,
        Key::Change => Form::Unsupported,
        Key::Equal => Form::Malformed,
        Key::Or => Form::Malformed,
        Key::Imply => Form::Malformed,
        Key::Exists => Form::Malformed,
        Key::Comparison => Form::Malformed,
        Key::Preference => Form::Malformed,
        Key::Arithmetic(_) => Form::Malformed,
    }
}

/// An atom as it is written: its place, its first word, and the items behind it.
#[derive(Clone, Copy)]
pub struct Written<'a> {
    pub at: u32,
    pub name: &'a [u8],
    pub items: &'a [Sexpr<'a>],
}

/// The parts of a tree that is an atom.
pub fn atom_in<'a>(tree: &'a Sexpr<'a>) -> Option<Written<'a>>
    ensures { atom_in (view tree.now) ≡ option_map written_of result }
{
    let Sexpr::Items { at, items } = tree else {
        return None;
    };
    let [head, rest @ ..] = *items else {
        return None;
    };
    let Sexpr::Word { text, .. } = head else {
        return None;
    };
    if form_of(text) != Form::Atom {
        return None;
    }
    Some(Written {
        at: *at,
        name: text,
        items: rest,
    })
}

/// The parts of the one item of a list, which is an atom.
pub fn only_atom<'a>(items: &'a [Sexpr<'a>]) -> Option<Written<'a>>
    ensures { only_atom (views items.now) ≡ option_map written_of result }
{
    let [item] = items else {
        return None;
    };
    atom_in(item)
}

/// A moment of a durative action.
#[derive(Clone, Copy, Debug, PartialEq, Eq)]
pub enum Moment {
    Start,
    End,
}

/// The moment that a tree names.
pub fn moment_of(tree: &Sexpr<'_>) -> Option<Moment>
    ensures { result ≡ moment_of (view tree.now) }
{
    let Sexpr::Word { text, .. } = tree else {
        return None;
    };
    if *text == b"start".as_slice() {
        Some(Moment::Start)
    } else if *text == b"end".as_slice() {
        Some(Moment::End)
    } else {
        None
    }
}

/// The moment and the effect of `(at start EFFECT)` or `(at end EFFECT)`, by its first word and the items behind it.
pub fn at_moment<'a>(word: &[u8], items: &'a [Sexpr<'a>]) -> Option<(Moment, &'a Sexpr<'a>)>
    ensures { at_moment word.now (views items.now) ≡ option_map (λ r. (r.0, view r.1.now)) result }
{
    let [moment, effect] = items else {
        return None;
    };
    if word != b"at".as_slice() {
        return None;
    }
    let moment = moment_of(moment)?;
    Some((moment, effect))
}
