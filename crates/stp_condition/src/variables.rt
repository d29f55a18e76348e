//! The variables of a quantifier.

ghost use Rattle.std.specs.Prelude.{◌≡◌, ◌++◌, IfOk, OnOk, List as Sequence};
ghost use Rattle.stp_text.specs.Tree.{view, views};
ghost use Rattle.stp_refusal.specs.Read.{IsRead, bad, map_read};
ghost use Rattle.stp_domain_parts.specs.Entries.{plains, kind_view};
ghost use Rattle.stp_schema.specs.Rows.{type_names_of};
ghost use Rattle.stp_condition.specs.Scope.{kinds_of};
ghost use Rattle.stp_condition.specs.Variables.{names_read, kind_read, typed_read, variables_read};

use crate::Scope;
use bumpalo::Bump;
use bumpalo::collections::into_bump_slice;
use std::alloc::Global;
use stp_base::{List, Memory};
use stp_domain_parts::{Entry, WordKind, judge_names, read_entries};
use stp_refusal::{Code, Offence, note};
use stp_schema::Declared;
use stp_tables::Names;
use stp_text::Sexpr;

/// Notes an offence of a type, and gives what stands in its place.
fn refused(at: u32, first: &mut Option<Offence>) -> u32
    ensures { IsRead first.old first.new result (bad at Code.D16 0) }
{
    note(first, at, Code::D16);
    0
}

/// The number of what stands as a variable's type. A list and a type that is not declared are D16 there.
fn read_kind(declared: &Declared<'_>, kind: Option<&Sexpr<'_>>, first: &mut Option<Offence>) -> u32
    ensures { IsRead first.old first.new result (kind_read (type_names_of declared.now.types.now) (kind_view kind.entry)) }
{
    match kind {
        None => 0,
        Some(Sexpr::Items { at, .. }) => refused(*at, first),
        Some(Sexpr::Word { at, text }) => match declared.find_type(text) {
            Some(number) => number,
            None => refused(*at, first),
        },
    }
}

/// The entries of a list of variables. One that is no variable, and one that repeats a name of the list, are D16.
fn read_names<'a>(
    alloc: Global,
    items: &'a [Sexpr<'a>],
    first: &mut Option<Offence>,
) -> Result<List<Entry<'a>>, Memory>
    ensures { IfOk result
        (λ r. IsRead first.old first.new (plains r) (names_read (views items.now))) }
{
    let entries = read_entries(alloc, items, Code::D16, first)?;
    let mut seen = Names::new(alloc);
    judge_names(
        WordKind::Variable,
        Code::D16,
        Code::D16,
        &mut seen,
        entries.as_slice(),
        first,
    )?;
    Ok(entries)
}

/// Puts the variables of these entries innermost, and gives their types.
fn add_variables<'a>(
    arena: &'a Bump,
    declared: &Declared<'_>,
    scope: &mut Scope<'a>,
    entries: &[Entry<'a>],
    first: &mut Option<Offence>,
) -> Result<&'a [u32], Memory>
    ensures kinds { IfOk result
        (λ r. IsRead first.old first.new r.now (map_read kinds_of (typed_read (type_names_of declared.now.types.now) (plains entries.now)))) }
    ensures scope { OnOk result
        (scope.new ≡ scope.old ++ (typed_read (type_names_of declared.now.types.now) (plains entries.now)).value) }
{
    let mut kinds = Vec::new(arena);
    for entry in entries {
        let kind = read_kind(declared, entry.kind, first);
        scope.push(entry.name, kind)?;
        kinds.push(kind)?;
    }
    Ok(into_bump_slice(kinds))
}

/// Puts the variables of a quantifier's list innermost, and gives their types. What would be an offence in a list
/// of parameters is D16 here, and so is a word in the list's place.
pub fn read_variables<'a>(
    alloc: Global,
    arena: &'a Bump,
    declared: &Declared<'_>,
    scope: &mut Scope<'a>,
    tree: &'a Sexpr<'a>,
    first: &mut Option<Offence>,
) -> Result<&'a [u32], Memory>
    ensures kinds { IfOk result
        (λ r. IsRead first.old first.new r.now (map_read kinds_of (variables_read (type_names_of declared.now.types.now) (view tree.now)))) }
    ensures scope { OnOk result
        (scope.new ≡ scope.old ++ (variables_read (type_names_of declared.now.types.now) (view tree.now)).value) }
{
    match tree {
        Sexpr::Word { at, .. } => {
            note(first, *at, Code::D16);
            Ok(&[])
        }
        Sexpr::Items { items, .. } => {
            let entries = read_names(alloc, items, first)?;
            let kinds = add_variables(arena, declared, scope, entries.as_slice(), first)?;
            Ok(kinds)
        }
    }
}
