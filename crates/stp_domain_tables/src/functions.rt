//! The items of `:functions`.

ghost use Rattle.std.specs.Prelude.{IfOk, OnOk};
ghost use Rattle.stp_text.specs.Tree.{view, views};
ghost use Rattle.stp_refusal.specs.Read.{IsRead, Finds};
ghost use Rattle.stp_domain_parts.specs.Judged.{shape_wrong};
ghost use Rattle.stp_domain_tables.specs.Functions.{no_groups, item_read, groups_read, functions_read};
ghost use Rattle.stp_domain_tables.specs.FunctionViews.{groups_of, functions_of};

use crate::symbols::read_symbols;
use crate::table::SymbolTable;
use std::alloc::Global;
use stp_base::{List, Memory};
use stp_domain_parts::entry::is_dash;
use stp_domain_parts::{Entry, judge_shapes};
use stp_refusal::{Code, Offence, note};
use stp_text::Sexpr;

/// Lists in groups, as far as they were read.
#[derive(Drop)]
struct Groups<'a> {
    lists: List<Sexpr<'a>>,
    kinds: List<Sexpr<'a>>,
    waiting: bool,
    dash: Option<u32>,
}

/// Functions as they are declared, and the types that stand behind them.
#[derive(Drop)]
pub struct FunctionTable<'a> {
    pub symbols: SymbolTable<'a>,
    pub kinds: List<Sexpr<'a>>,
}

/// Looks at what stands as a type, which may not be a list.
fn judge_kind(tree: &Sexpr<'_>, first: &mut Option<Offence>)
    ensures { Finds first.old first.new (shape_wrong (view tree.now)) }
{
    let at = tree.place();
    let entry = Entry {
        at,
        name: &[],
        group: at,
        kind: Some(tree),
    };
    judge_shapes(&[entry], first);
}

impl<'a> Groups<'a> {
    /// Reads an item.
    fn read(&mut self, item: &Sexpr<'a>, first: &mut Option<Offence>) -> Result<(), Memory>
        ensures { OnOk result (IsRead first.old first.new (groups_of self.new) (item_read (groups_of self.old) self.old.dash (view item.now))) }
    {
        match (self.dash, item) {
            (Some(_), _) => {
                judge_kind(item, first);
                self.kinds.push(*item)?;
                self.waiting = false;
                self.dash = None;
            }
            (None, Sexpr::Items { .. }) => {
                self.lists.push(*item)?;
                self.waiting = true;
            }
            (None, Sexpr::Word { at, text }) => {
                if is_dash(text) && self.waiting {
                    self.dash = Some(*at);
                } else {
                    note(first, *at, Code::D10);
                }
            }
        }
        Ok(())
    }
}

/// Reads the groups of items.
fn read_groups<'a>(
    alloc: Global,
    items: &[Sexpr<'a>],
    first: &mut Option<Offence>,
) -> Result<Groups<'a>, Memory>
    ensures { IfOk result (λ r. IsRead first.old first.new (groups_of r) (groups_read no_groups (views items.now))) }
{
    let mut found = Groups {
        lists: List::new(alloc),
        kinds: List::new(alloc),
        waiting: false,
        dash: None,
    };
    for item in items {
        found.read(item, first)?;
    }
    if let Some(at) = found.dash {
        note(first, at, Code::D10);
    }
    Ok(found)
}

/// Reads the items that declare functions.
pub fn read_functions<'a>(
    alloc: Global,
    items: &[Sexpr<'a>],
    first: &mut Option<Offence>,
) -> Result<FunctionTable<'a>, Memory>
    ensures { IfOk result (λ r. IsRead first.old first.new (functions_of r) (functions_read (views items.now))) }
{
    let found = read_groups(alloc, items, first)?;
    let symbols = read_symbols(alloc, found.lists.as_slice(), first)?;
    Ok(FunctionTable {
        symbols,
        kinds: found.kinds,
    })
}
