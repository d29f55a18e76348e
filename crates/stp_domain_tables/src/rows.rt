//! Rows of types, predicates, functions, constants and actions, made in an arena.

ghost use Rattle.std.specs.Prelude.{◌≡◌, length, map, IfOk, OnOk};
ghost use Rattle.stp_domain_parts.specs.Entries.{plain, plains};
ghost use Rattle.stp_schema.specs.Rows.{shape_of, thing_of, object_names_of, symbol_names_of, type_names_of, parents_of};
ghost use Rattle.stp_domain_tables.specs.Named.{names_of, action_names_of};
ghost use Rattle.stp_domain_tables.specs.Views.{signature_of};
ghost use Rattle.stp_domain_tables.specs.ActionViews.{action_signature_of};
ghost use Rattle.stp_domain_tables.specs.ActionRows.{action_shape_of, row_names_of};
ghost use Rattle.stp_domain_tables.specs.Tables.{kinds_of, words_of, shape, no_things, with_thing, with_things, action_shape};
ghost use Rattle.stp_domain_tables.specs.Rows.{things_of};

use crate::action_row::ActionRow;
use crate::declaration::{ActionDeclaration, Declaration};
use bumpalo::Bump;
use bumpalo::collections::into_bump_slice;
use std::alloc::Global;
use stp_base::{List, Memory};
use stp_domain_parts::{Entry, number_of_kind};
use stp_schema::{ObjectRow, Objects, Symbol, TypeRow};
use stp_tables::Names;

/// The rows of types.
pub fn type_rows<'a>(
    arena: &'a Bump,
    words: &[&'a [u8]],
    parents: &[u32],
) -> Result<&'a [TypeRow<'a>], Memory>
    requires { length words.now ≡ length parents.now }
    ensures names { IfOk result (λ r. type_names_of r.now ≡ map (λ w. w.now) words.now) }
    ensures parents { IfOk result (λ r. parents_of r.now ≡ parents.now) }
{
    let mut rows = Vec::new(arena);
    for (number, name) in words.iter().enumerate() {
        rows.push(TypeRow {
            name,
            parent: parents[number],
        })?;
    }
    Ok(into_bump_slice(rows))
}

/// The types of entries.
fn kinds<'a>(arena: &'a Bump, types: &Names, entries: &[Entry<'_>]) -> Result<&'a [u32], Memory>
    ensures { IfOk result (λ r. r.now ≡ kinds_of types.now (plains entries.now)) }
{
    let mut kinds = Vec::new(arena);
    for entry in entries {
        kinds.push(number_of_kind(types, entry))?;
    }
    Ok(into_bump_slice(kinds))
}

/// The words of entries.
fn words<'a>(arena: &'a Bump, entries: &[Entry<'a>]) -> Result<&'a [&'a [u8]], Memory>
    ensures { IfOk result (λ r. map (λ w. w.now) r.now ≡ words_of (plains entries.now)) }
{
    let mut words = Vec::new(arena);
    for entry in entries {
        words.push(entry.name)?;
    }
    Ok(into_bump_slice(words))
}

/// The rows of predicates or functions.
pub fn symbol_rows<'a>(
    arena: &'a Bump,
    types: &Names,
    declarations: &[Declaration<'a>],
) -> Result<&'a [Symbol<'a>], Memory>
    ensures shapes { IfOk result (λ r. map shape_of r.now ≡ map (shape types.now) (map signature_of declarations.now)) }
    ensures names { IfOk result (λ r. symbol_names_of r.now ≡ names_of declarations.now) }
{
    let mut rows = Vec::new(arena);
    for declaration in declarations {
        let parameters = kinds(arena, types, declaration.parameters.as_slice())?;
        rows.push(Symbol {
            name: declaration.name,
            parameters,
        })?;
    }
    Ok(into_bump_slice(rows))
}

/// The rows of actions.
pub fn action_rows<'a>(
    arena: &'a Bump,
    types: &Names,
    declarations: &[ActionDeclaration<'a>],
) -> Result<&'a [ActionRow<'a>], Memory>
    ensures shapes { IfOk result (λ r. map action_shape_of r.now ≡ map (action_shape types.now) (map action_signature_of declarations.now)) }
    ensures names { IfOk result (λ r. row_names_of r.now ≡ action_names_of declarations.now) }
{
    let mut rows = Vec::new(arena);
    for declaration in declarations {
        let names = words(arena, declaration.parameters.as_slice())?;
        let kinds = kinds(arena, types, declaration.parameters.as_slice())?;
        rows.push(ActionRow {
            action: declaration.action,
            names,
            kinds,
        })?;
    }
    Ok(into_bump_slice(rows))
}

/// Keeps an entry whose name is new as an object.
fn add_object<'a>(
    types: &Names,
    names: &mut Names,
    rows: &mut List<ObjectRow<'a>>,
    entry: &Entry<'a>,
) -> Result<(), Memory>
    ensures things { OnOk result (things_of names.new rows.new ≡ with_thing types.now (things_of names.old rows.old) (plain entry.now)) }
    ensures named { OnOk result (names.old ≡ object_names_of rows.old → names.new ≡ object_names_of rows.new) }
{
    if names.add(entry.name)? {
        rows.push(ObjectRow {
            name: entry.name,
            kind: number_of_kind(types, entry),
        })?;
    }
    Ok(())
}

/// The constants, each name once.
pub fn read_objects<'a>(
    alloc: Global,
    arena: &'a Bump,
    types: &Names,
    entries: &[Entry<'a>],
) -> Result<Objects<'a>, Memory>
    ensures { IfOk result (λ r. map thing_of r.rows.now ≡ (with_things types.now no_things (plains entries.now)).rows) }
{
    let mut names = Names::new(alloc);
    let mut found = List::new(alloc);
    for entry in entries {
        add_object(types, &mut names, &mut found, entry)?;
    }
    let rows = arena.try_alloc_slice_copy(found.as_slice())?;
    Ok(Objects { rows, names })
}
