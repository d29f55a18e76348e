//! What a domain declares, as it is written: the second phase of reading.

ghost use Rattle.std.specs.Prelude.{IfOk};
ghost use Rattle.stp_text.specs.Tree.{view, views};
ghost use Rattle.stp_refusal.specs.Read.{IsRead, Finds};
ghost use Rattle.stp_domain_parts.specs.Entries.{plains};
ghost use Rattle.stp_domain_parts.specs.Views.{domain_of};
ghost use Rattle.stp_domain_tables.specs.Declarations.{names_read, parent_wrong, parents_wrong, types_read, declarations_read};
ghost use Rattle.stp_domain_tables.specs.DeclarationViews.{declarations_of};

use crate::actions::read_actions;
use crate::functions::{FunctionTable, read_functions};
use crate::symbols::read_symbols;
use crate::table::{ActionTable, SymbolTable};
use std::alloc::Global;
use stp_base::{List, Memory};
use stp_domain_parts::{DomainParts, Entry, WordKind, judge_names, judge_shapes, read_entries};
use stp_refusal::{Code, Offence, note};
use stp_tables::Names;
use stp_text::{Sexpr, is_name};

/// What a domain declares, as it is written.
#[derive(Drop)]
pub struct Declarations<'a> {
    /// The items of `:types`.
    pub type_items: &'a [Sexpr<'a>],
    pub types: List<Entry<'a>>,
    pub constants: List<Entry<'a>>,
    pub predicates: SymbolTable<'a>,
    pub functions: FunctionTable<'a>,
    pub actions: ActionTable<'a>,
}

/// Reads a typed list of names, where some names are declared.
fn read_names<'a>(
    alloc: Global,
    mut seen: Names,
    items: &'a [Sexpr<'a>],
    first: &mut Option<Offence>,
) -> Result<List<Entry<'a>>, Memory>
    ensures { IfOk result (λ r. IsRead first.old first.new (plains r) (names_read seen (views items.now))) }
{
    let entries = read_entries(alloc, items, Code::D10, first)?;
    judge_names(
        WordKind::Name,
        Code::D07,
        Code::D08,
        &mut seen,
        entries.as_slice(),
        first,
    )?;
    judge_shapes(entries.as_slice(), first);
    Ok(entries)
}

/// Looks at what stands as a type behind others, which has to be a name if it is a word.
fn judge_parent(tree: &Sexpr<'_>, first: &mut Option<Offence>)
    ensures { Finds first.old first.new (parent_wrong (view tree.now)) }
{
    match tree {
        Sexpr::Word { at, text } => {
            if !is_name(text) {
                note(first, *at, Code::D07);
            }
        }
        Sexpr::Items { .. } => {}
    }
}

/// Looks for types that stand behind others and are no names.
fn judge_parents(entries: &[Entry<'_>], first: &mut Option<Offence>)
    ensures { Finds first.old first.new (parents_wrong (plains entries.now)) }
{
    for entry in entries {
        if let Some(tree) = entry.kind {
            judge_parent(tree, first);
        }
    }
}

/// Reads the items of `:types`.
fn read_types<'a>(
    alloc: Global,
    items: &'a [Sexpr<'a>],
    first: &mut Option<Offence>,
) -> Result<List<Entry<'a>>, Memory>
    ensures { IfOk result (λ r. IsRead first.old first.new (plains r) (types_read (views items.now))) }
{
    let mut seen = Names::new(alloc);
    seen.add(b"object".as_slice())?;
    let entries = read_names(alloc, seen, items, first)?;
    judge_parents(entries.as_slice(), first);
    Ok(entries)
}

/// Reads what the parts of a domain declare, and notes each offence of the second phase.
pub fn read_declarations<'a>(
    alloc: Global,
    parts: DomainParts<'a>,
    first: &mut Option<Offence>,
) -> Result<Declarations<'a>, Memory>
    ensures { IfOk result (λ r. IsRead first.old first.new (declarations_of r) (declarations_read (domain_of parts.entry))) }
{
    let types = read_types(alloc, parts.types, first)?;
    let constants = read_names(alloc, Names::new(alloc), parts.constants, first)?;
    let predicates = read_symbols(alloc, parts.predicates, first)?;
    let functions = read_functions(alloc, parts.functions, first)?;
    let actions = read_actions(alloc, parts.actions, first)?;
    Ok(Declarations {
        type_items: parts.types,
        types,
        constants,
        predicates,
        functions,
        actions,
    })
}
