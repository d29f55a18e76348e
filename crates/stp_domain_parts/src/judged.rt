//! What is wrong with the entries of a typed list.

ghost use Rattle.std.specs.Prelude.{◌≡◌, ◌<◌, ◌≤◌, length, map, None, Some, bytes_eq, codes, IfOk, OnOk};
ghost use Rattle.stp_text.specs.Tree.{view, views};
ghost use Rattle.stp_refusal.specs.Read.{Finds};
ghost use Rattle.stp_domain_parts.specs.Entries.{plain, plains, kind_view};
ghost use Rattle.stp_domain_parts.specs.Judged.{is_spelled, names_after, names_wrong, begins_either, shape_wrong, shapes_wrong, kind_unknown, kinds_unknown, of_kind_wrong, kind_number};

use crate::entry::Entry;
use stp_base::Memory;
use stp_refusal::{Code, Offence, note};
use stp_tables::Names;
use stp_text::{Sexpr, is_name, is_variable};

/// What the entries of a list have to be spelled as.
#[derive(Clone, Copy, Debug, PartialEq, Eq)]
pub enum WordKind {
    Name,
    Variable,
}

/// Whether a word is spelled as the entries of a list have to be.
pub fn is_spelled(kind: WordKind, text: &[u8]) -> bool
    ensures { result ≡ is_spelled kind text.now }
{
    match kind {
        WordKind::Name => is_name(text),
        WordKind::Variable => is_variable(text),
    }
}

/// Looks for entries that are spelled otherwise, and for those that repeat a name that was seen.
pub fn judge_names(
    kind: WordKind,
    misspelled: Code,
    repeated: Code,
    seen: &mut Names,
    entries: &[Entry<'_>],
    first: &mut Option<Offence>,
) -> Result<(), Memory>
    ensures names { OnOk result (seen.new ≡ names_after seen.old (plains entries.now)) }
    ensures found { OnOk result
        (Finds first.old first.new (names_wrong kind misspelled repeated seen.old (plains entries.now))) }
{
    for entry in entries {
        if !is_spelled(kind, entry.name) {
            note(first, entry.at, misspelled);
        }
        if !seen.add(entry.name)? {
            note(first, entry.at, repeated);
        }
    }
    Ok(())
}

/// Whether the items of a list begin with `either`.
fn begins_either(items: &[Sexpr<'_>]) -> bool
    ensures { result ≡ begins_either (views items.now) }
{
    let [head, ..] = items else {
        return false;
    };
    match head {
        Sexpr::Word { text, .. } => *text == b"either".as_slice(),
        Sexpr::Items { .. } => false,
    }
}

/// Looks at what stands as a type, which may not be a list.
fn judge_shape(tree: &Sexpr<'_>, first: &mut Option<Offence>)
    ensures { Finds first.old first.new (shape_wrong (view tree.now)) }
{
    match tree {
        Sexpr::Word { .. } => {}
        Sexpr::Items { at, items } => {
            if begins_either(items) {
                note(first, *at, Code::D11);
            } else {
                note(first, *at, Code::D10);
            }
        }
    }
}

/// Looks for types that are lists.
pub fn judge_shapes(entries: &[Entry<'_>], first: &mut Option<Offence>)
    ensures { Finds first.old first.new (shapes_wrong (plains entries.now)) }
{
    for entry in entries {
        if let Some(tree) = entry.kind {
            judge_shape(tree, first);
        }
    }
}

/// Looks at what stands as a type, which has to be declared if it is a word.
fn judge_kind(code: Code, types: &Names, tree: &Sexpr<'_>, first: &mut Option<Offence>)
    ensures { Finds first.old first.new (kind_unknown code types.now (view tree.now)) }
{
    match tree {
        Sexpr::Word { at, text } => {
            if types.find(text).is_none() {
                note(first, *at, code);
            }
        }
        Sexpr::Items { .. } => {}
    }
}

/// Looks for types that are not declared.
pub fn judge_kinds(code: Code, types: &Names, entries: &[Entry<'_>], first: &mut Option<Offence>)
    ensures { Finds first.old first.new (kinds_unknown code types.now (plains entries.now)) }
{
    for entry in entries {
        if let Some(tree) = entry.kind {
            judge_kind(code, types, tree, first);
        }
    }
}

/// The number of an entry's type, 0 where there is none that is declared.
pub fn number_of_kind(types: &Names, entry: &Entry<'_>) -> u32
    ensures { result ≡ kind_number types.now (plain entry.now) }
{
    match entry.kind {
        Some(Sexpr::Word { text, .. }) => match types.find(text) {
            Some(number) => number,
            None => 0,
        },
        Some(Sexpr::Items { .. }) => 0,
        None => 0,
    }
}
