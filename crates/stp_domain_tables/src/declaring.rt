//! The third phase of reading: from what is declared to the tables of a domain.

ghost use Rattle.std.specs.Prelude.{◌≡◌, IfOk};
ghost use Rattle.stp_text.specs.Tree.{views};
ghost use Rattle.stp_refusal.specs.Read.{IsRead, Finds};
ghost use Rattle.stp_domain_parts.specs.Entries.{plains};
ghost use Rattle.stp_schema.specs.Rows.{parents_of};
ghost use Rattle.stp_domain_tables.specs.DeclarationViews.{declarations_of};
ghost use Rattle.stp_domain_tables.specs.Types.{types_in, parents_in, loops_wrong, forest_of};
ghost use Rattle.stp_domain_tables.specs.Tables.{kinds_wrong, tables_read};
ghost use Rattle.stp_domain_tables.specs.TableViews.{tables_of};

use crate::declarations::Declarations;
use crate::kinds::{judge_actions, judge_numbers, judge_symbols};
use crate::rows::{action_rows, read_objects, symbol_rows, type_rows};
use crate::tables::{DeclaredDomain, TypeTable};
use crate::types::{judge_loops, make_forest, read_parents, read_type_names};
use bumpalo::Bump;
use std::alloc::Global;
use stp_base::Memory;
use stp_domain_parts::{Entry, judge_kinds};
use stp_refusal::{Code, Offence};
use stp_schema::Declared;
use stp_tables::Names;
use stp_text::Sexpr;
use stp_types::{ancestries, looped};

/// Makes the table of the types, and notes those that are ancestors of themselves.
fn declare_types<'a>(
    alloc: Global,
    arena: &'a Bump,
    items: &'a [Sexpr<'a>],
    entries: &[Entry<'a>],
    first: &mut Option<Offence>,
) -> Result<TypeTable<'a>, Memory>
    ensures names { IfOk result (λ r. r.names ≡ types_in (views items.now)) }
    ensures parents { IfOk result (λ r. parents_of r.rows.now ≡ forest_of (parents_in (types_in (views items.now)) (plains entries.now))) }
    ensures found { IfOk result (λ r. Finds first.old first.new (loops_wrong (types_in (views items.now)) (parents_in (types_in (views items.now)) (plains entries.now)) (plains entries.now))) }
{
    let (words, names) = read_type_names(alloc, items)?;
    let parents = read_parents(alloc, &names, entries)?;
    let marks = looped(alloc, parents.as_slice())?;
    judge_loops(&names, marks.as_slice(), entries, first);
    let forest = make_forest(alloc, parents, marks.as_slice())?;
    let rows = type_rows(arena, words.as_slice(), forest.as_slice())?;
    let found = ancestries(alloc, forest.as_slice())?;
    let ancestries = arena.try_alloc_slice_copy(found.as_slice())?;
    Ok(TypeTable {
        rows,
        ancestries,
        names,
    })
}

/// Looks for types that are not declared, and for types of functions other than `number`.
fn judge_types(types: &Names, declarations: &Declarations<'_>, first: &mut Option<Offence>)
    ensures { Finds first.old first.new (kinds_wrong types.now (declarations_of declarations.now)) }
{
    judge_kinds(Code::D13, types, declarations.constants.as_slice(), first);
    judge_symbols(types, declarations.predicates.rows.as_slice(), first);
    judge_symbols(types, declarations.functions.symbols.rows.as_slice(), first);
    judge_numbers(declarations.functions.kinds.as_slice(), first);
    judge_actions(types, declarations.actions.rows.as_slice(), first);
}

/// Makes the tables of what is declared, and notes each offence of the third phase.
pub fn declare<'a>(
    alloc: Global,
    arena: &'a Bump,
    declarations: Declarations<'a>,
    first: &mut Option<Offence>,
) -> Result<DeclaredDomain<'a>, Memory>
    ensures { IfOk result (λ r. IsRead first.old first.new (tables_of r) (tables_read (declarations_of declarations.entry))) }
{
    let types = declare_types(
        alloc,
        arena,
        declarations.type_items,
        declarations.types.as_slice(),
        first,
    )?;
    judge_types(&types.names, &declarations, first);
    let Declarations {
        constants,
        predicates,
        functions,
        actions,
        ..
    } = declarations;
    let functions = functions.symbols;
    let predicate_rows = symbol_rows(arena, &types.names, predicates.rows.as_slice())?;
    let function_rows = symbol_rows(arena, &types.names, functions.rows.as_slice())?;
    let action_rows = action_rows(arena, &types.names, actions.rows.as_slice())?;
    let constants = read_objects(alloc, arena, &types.names, constants.as_slice())?;
    Ok(DeclaredDomain {
        declared: Declared {
            types: types.rows,
            predicates: predicate_rows,
            functions: function_rows,
            ancestries: types.ancestries,
            type_names: types.names,
            predicate_names: predicates.names,
            function_names: functions.names,
        },
        constants,
        actions: action_rows,
        action_names: actions.names,
    })
}
