//! The objects of a problem.

ghost use Rattle.std.specs.Prelude.{◌≡◌, ◌++◌, [], length, map, IfOk, OnOk};
ghost use Rattle.stp_text.specs.Tree.{view, views};
ghost use Rattle.stp_refusal.specs.Read.{IsRead, Finds};
ghost use Rattle.stp_domain_parts.specs.Entries.{plain, plains};
ghost use Rattle.stp_schema.specs.Rows.{thing_of, object_names_of};
ghost use Rattle.stp_domain_tables.specs.Objects.{with_object, with_objects};
ghost use Rattle.stp_problem.specs.Objects.{type_wrong, types_wrong, names_with, declared_object, declared_objects, all_objects, objects_read};

use bumpalo::Bump;
use std::alloc::Global;
use stp_base::{List, Memory};
use stp_domain_parts::{Entry, WordKind, judge_names, number_of_kind, read_entries};
use stp_refusal::{Code, Offence, note};
use stp_schema::{ObjectRow, Objects};
use stp_tables::Names;
use stp_text::Sexpr;

/// Looks at what stands as the type of a group whose first entry is at this place.
fn judge_type(types: &Names, group: u32, tree: &Sexpr<'_>, first: &mut Option<Offence>)
    ensures { Finds first.old first.new (type_wrong types.now group (view tree.now)) }
{
    match tree {
        Sexpr::Word { text, .. } => {
            if types.find(text).is_none() {
                note(first, group, Code::P06);
            }
        }
        Sexpr::Items { at, .. } => note(first, *at, Code::P06),
    }
}

/// Looks for types that are lists, and for types that are not declared.
fn judge_types(types: &Names, entries: &[Entry<'_>], first: &mut Option<Offence>)
    ensures { Finds first.old first.new (types_wrong types.now (plains entries.now)) }
{
    for entry in entries {
        if let Some(tree) = entry.kind {
            judge_type(types, entry.group, tree, first);
        }
    }
}

/// The names of objects, each once.
fn names_of(alloc: Global, rows: &[ObjectRow<'_>]) -> Result<Names, Memory>
    ensures { IfOk result (λ names. names ≡ names_with [] (map thing_of rows.now)) }
{
    let mut names = Names::new(alloc);
    for row in rows {
        names.add(row.name)?;
    }
    Ok(names)
}

/// Keeps an object whose name is new.
fn add_object<'a>(
    names: &mut Names,
    rows: &mut List<ObjectRow<'a>>,
    row: ObjectRow<'a>,
) -> Result<(), Memory>
    requires { names.old ≡ object_names_of rows.old }
    ensures rows { OnOk result (map thing_of rows.new ≡ with_object (map thing_of rows.old) (thing_of row.entry)) }
    ensures names { OnOk result (names.new ≡ object_names_of rows.new) }
{
    if names.add(row.name)? {
        rows.push(row)?;
    }
    Ok(())
}

/// Keeps the objects whose names are new.
fn add_objects<'a>(
    names: &mut Names,
    rows: &mut List<ObjectRow<'a>>,
    more: &[ObjectRow<'a>],
) -> Result<(), Memory>
    requires { names.old ≡ object_names_of rows.old }
    ensures rows { OnOk result (map thing_of rows.new ≡ with_objects (map thing_of rows.old) (map thing_of more.now)) }
    ensures names { OnOk result (names.new ≡ object_names_of rows.new) }
{
    for row in more {
        add_object(names, rows, *row)?;
    }
    Ok(())
}

/// The objects of these entries, with the numbers of their types.
fn rows_of<'a>(
    alloc: Global,
    types: &Names,
    entries: &[Entry<'a>],
) -> Result<List<ObjectRow<'a>>, Memory>
    ensures { IfOk result (λ rows. map thing_of rows ≡ declared_objects types.now (plains entries.now)) }
{
    let mut rows = List::new(alloc);
    for entry in entries {
        rows.push(ObjectRow {
            name: entry.name,
            kind: number_of_kind(types, entry),
        })?;
    }
    Ok(rows)
}

/// The constants, and then the objects of these entries, each name once.
fn all_objects<'a>(
    alloc: Global,
    arena: &'a Bump,
    types: &Names,
    constants: &[ObjectRow<'a>],
    entries: &[Entry<'a>],
) -> Result<Objects<'a>, Memory>
    ensures { IfOk result (λ r. map thing_of r.rows.now ≡ all_objects types.now (map thing_of constants.now) (plains entries.now)) }
{
    let mut names = Names::new(alloc);
    let mut found = List::new(alloc);
    add_objects(&mut names, &mut found, constants)?;
    let more = rows_of(alloc, types, entries)?;
    add_objects(&mut names, &mut found, more.as_slice())?;
    let rows = arena.try_alloc_slice_copy(found.as_slice())?;
    Ok(Objects { rows, names })
}

/// What the items of `:objects` say: the constants, and then the objects, each name once, the first.
///
/// Each offence is noted: words that are no names, types that are lists or not declared, and names that are repeated,
/// those of the constants counted.
pub fn read_objects<'a>(
    alloc: Global,
    arena: &'a Bump,
    types: &Names,
    constants: &[ObjectRow<'a>],
    items: &'a [Sexpr<'a>],
    first: &mut Option<Offence>,
) -> Result<Objects<'a>, Memory>
    ensures { IfOk result
        (λ r. IsRead first.old first.new (map thing_of r.rows.now)
        (objects_read types.now (map thing_of constants.now) (views items.now))) }
{
    let entries = read_entries(alloc, items, Code::P06, first)?;
    let mut seen = names_of(alloc, constants)?;
    judge_names(
        WordKind::Name,
        Code::P06,
        Code::P07,
        &mut seen,
        entries.as_slice(),
        first,
    )?;
    judge_types(types, entries.as_slice(), first);
    let objects = all_objects(alloc, arena, types, constants, entries.as_slice())?;
    Ok(objects)
}
