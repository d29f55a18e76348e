//! Predicates and functions.

ghost use Rattle.std.specs.Prelude.{◌≡◌, IfOk, OnOk};
ghost use Rattle.stp_text.specs.Tree.{view, views};
ghost use Rattle.stp_refusal.specs.Read.{IsRead};
ghost use Rattle.stp_domain_tables.specs.Symbols.{no_symbols, symbol_read, symbols_read};
ghost use Rattle.stp_domain_tables.specs.Views.{symbols_of, table_of};
ghost use Rattle.stp_domain_tables.specs.Named.{names_of};

use crate::declaration::Declaration;
use crate::head::head_of;
use crate::parameters::read_parameters;
use crate::table::SymbolTable;
use std::alloc::Global;
use stp_base::{List, Memory};
use stp_refusal::{Code, Offence, note};
use stp_tables::Names;
use stp_text::Sexpr;

/// Reads an item that declares one.
fn read_symbol<'a>(
    alloc: Global,
    names: &mut Names,
    rows: &mut List<Declaration<'a>>,
    item: &Sexpr<'a>,
    first: &mut Option<Offence>,
) -> Result<(), Memory>
    ensures read { OnOk result (IsRead first.old first.new (symbols_of names.new rows.new) (symbol_read (symbols_of names.old rows.old) (view item.now))) }
    ensures named { OnOk result (names.old ≡ names_of rows.old → names.new ≡ names_of rows.new) }
{
    let Some(head) = head_of(item) else {
        note(first, item.place(), Code::D10);
        return Ok(());
    };
    let is_new = names.add(head.name)?;
    let parameters = read_parameters(alloc, true, is_new, head, first)?;
    if is_new {
        rows.push(Declaration {
            name: head.name,
            parameters,
        })?;
    }
    Ok(())
}

/// Reads the items that declare predicates or functions.
pub fn read_symbols<'a>(
    alloc: Global,
    items: &[Sexpr<'a>],
    first: &mut Option<Offence>,
) -> Result<SymbolTable<'a>, Memory>
    ensures { IfOk result (λ r. IsRead first.old first.new (table_of r) (symbols_read no_symbols (views items.now))) }
{
    let mut names = Names::new(alloc);
    let mut rows = List::new(alloc);
    for item in items {
        read_symbol(alloc, &mut names, &mut rows, item, first)?;
    }
    Ok(SymbolTable { rows, names })
}
