//! The entries of a typed list.

ghost use Rattle.std.specs.Prelude.{◌≡◌, ◌++◌, [], map, None, Some, bytes_eq, codes, IfOk, OnOk, List as Sequence, Option as Maybe};
ghost use Rattle.stp_text.specs.Tree.{view, views};
ghost use Rattle.stp_refusal.specs.Read.{IsRead};
ghost use Rattle.stp_domain_parts.specs.Entries.{plains, is_dash, is_empty, group_place, with_kind, entries_of, kind_view};

use std::alloc::Global;
use stp_base::{List, Memory};
use stp_refusal::{Code, Offence, note};
use stp_text::Sexpr;

/// An entry of a typed list: a word, the place of the first entry of its group, and what stands as the group's type.
#[derive(Clone, Copy)]
pub struct Entry<'a> {
    pub at: u32,
    pub name: &'a [u8],
    pub group: u32,
    pub kind: Option<&'a Sexpr<'a>>,
}

/// Whether a word is the `-` before a type.
pub fn is_dash(text: &[u8]) -> bool
    ensures { result ≡ is_dash text.now }
{
    text == b"-".as_slice()
}

/// Whether a group has no entry.
fn has_none(group: &[Entry<'_>]) -> bool
    ensures { result ≡ is_empty (plains group.now) }
{
    let [_, ..] = group else {
        return true;
    };
    false
}

/// The place of a group's first entry, which is this one where there is none yet.
fn group_place(group: &[Entry<'_>], at: u32) -> u32
    ensures { result ≡ group_place (plains group.now) at }
{
    let [entry, ..] = group else {
        return at;
    };
    entry.group
}

/// Puts a group at the end, once its type is known.
fn add_group<'a>(
    out: &mut List<Entry<'a>>,
    group: &[Entry<'a>],
    kind: Option<&'a Sexpr<'a>>,
) -> Result<(), Memory>
    ensures { OnOk result
        (plains out.new ≡ plains out.old ++ with_kind (kind_view kind.entry) (plains group.now)) }
{
    for entry in group {
        out.push(Entry {
            at: entry.at,
            name: entry.name,
            group: entry.group,
            kind,
        })?;
    }
    Ok(())
}

/// The entries of the items of a typed list, in order. An item that is no word, a `-` with no group before it and
/// one with no item behind it are offences of this code, and no entries.
pub fn read_entries<'a>(
    alloc: Global,
    items: &'a [Sexpr<'a>],
    code: Code,
    first: &mut Option<Offence>,
) -> Result<List<Entry<'a>>, Memory>
    ensures { IfOk result
        (λ r. IsRead first.old first.new (plains r) (entries_of code [] None (views items.now))) }
{
    let mut out = List::new(alloc);
    let mut group = Vec::new(alloc);
    let mut dash = None;
    for item in items {
        match (dash, item) {
            (Some(_), _) => {
                add_group(&mut out, group.as_slice(), Some(item))?;
                group.clear();
                dash = None;
            }
            (None, Sexpr::Items { at, .. }) => note(first, *at, code),
            (None, Sexpr::Word { at, text }) => {
                if is_dash(text) {
                    if has_none(group.as_slice()) {
                        note(first, *at, code);
                    } else {
                        dash = Some(*at);
                    }
                } else {
                    let place = group_place(group.as_slice(), *at);
                    group.push(Entry {
                        at: *at,
                        name: text,
                        group: place,
                        kind: None,
                    })?;
                }
            }
        }
    }
    match dash {
        Some(at) => note(first, at, code),
        None => {}
    }
    add_group(&mut out, group.as_slice(), None)?;
    Ok(out)
}
