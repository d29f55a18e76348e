//! The forms of the items of `:init`.

ghost use Rattle.std.specs.Prelude.{◌≡◌, option_map};
ghost use Rattle.stp_text.specs.Tree.{view, views};
ghost use Rattle.stp_frac.specs.Fractions.{value_of};
ghost use Rattle.stp_problem.specs.Items.{value_parts, value_form, denied_form, atom_form, symbol_form, form_of};
ghost use Rattle.stp_problem.specs.Views.{call_view, form_view};

use crate::call::{Call, call_of};
use crate::window::number_in;
use crate::written::{Telling, denied_part, list_written};
use stp_condition::{Key, key_of};
use stp_frac::Frac;
use stp_text::{Sexpr, first_of, only};

/// What an item says: an atom that is true, one that is not, a function's value, an event of the environment, or nothing
/// of these.
#[derive(Clone, Copy)]
pub enum Item<'a> {
    Holds(Call<'a>),
    Denied(Call<'a>),
    Value(Call<'a>, Frac),
    Timed,
    Malformed,
}

/// The atom and the number in `(= ATOM NUMBER)`, behind its first word.
fn value_parts<'a>(items: &'a [Sexpr<'a>]) -> Option<(Call<'a>, Frac)>
    ensures { value_parts (views items.now) ≡ option_map (λ r. (call_view r.0, value_of r.1)) result }
{
    let (first, rest) = first_of(items)?;
    let last = only(rest)?;
    let call = call_of(first)?;
    let number = number_in(last)?;
    Some((call, number))
}

/// The form of `(= ATOM NUMBER)`.
fn value_form<'a>(items: &'a [Sexpr<'a>]) -> Item<'a>
    ensures { form_view result ≡ value_form (views items.now) }
{
    match value_parts(items) {
        Some((call, number)) => Item::Value(call, number),
        None => Item::Malformed,
    }
}

/// The form of `(not ATOM)`.
fn denied_form<'a>(items: &'a [Sexpr<'a>]) -> Item<'a>
    ensures { form_view result ≡ denied_form (views items.now) }
{
    match denied_part(items) {
        Some(call) => Item::Denied(call),
        None => Item::Malformed,
    }
}

/// The form of an atom.
fn atom_form<'a>(tree: &'a Sexpr<'a>) -> Item<'a>
    ensures { form_view result ≡ atom_form (view tree.now) }
{
    match call_of(tree) {
        Some(call) => Item::Holds(call),
        None => Item::Malformed,
    }
}

/// The form of a list that begins with a word that may begin an atom.
fn symbol_form<'a>(name: &[u8], items: &'a [Sexpr<'a>], tree: &'a Sexpr<'a>) -> Item<'a>
    ensures { form_view result ≡ symbol_form name.now (views items.now) (view tree.now) }
{
    match list_written(name, items) {
        Telling::Other => atom_form(tree),
        _ => Item::Timed,
    }
}

/// The form of an item.
pub fn form_of<'a>(tree: &'a Sexpr<'a>) -> Item<'a>
    ensures { form_view result ≡ form_of (view tree.now) }
{
    let Some((name, items)) = tree.keyed() else {
        return Item::Malformed;
    };
    match key_of(name) {
        Key::Equal => value_form(items),
        Key::Not => denied_form(items),
        Key::Symbol => symbol_form(name, items, tree),
        _ => Item::Malformed,
    }
}
