//! Items of `:init` that tell events of the environment.

ghost use Rattle.std.specs.Prelude.{◌≡◌, [], option_map, map, IfOk, OnOk};
ghost use Rattle.stp_text.specs.Tree.{view, views};
ghost use Rattle.stp_refusal.specs.Read.{IsRead};
ghost use Rattle.stp_schema.specs.Known.{known};
ghost use Rattle.stp_schema.specs.Timed.{literal_of};
ghost use Rattle.stp_problem.specs.TimedItems.{with_literal, literal_read, literals_read, written_read, timed_item_read, timed_read};
ghost use Rattle.stp_problem.specs.Views.{atom_of_fact, written_view};
ghost use Rattle.stp_problem.specs.TimedViews.{timed_items_of};

use crate::call::read_call;
use crate::timed_item::TimedItem;
use crate::written::{Telling, literal_in, written};
use bumpalo::Bump;
use std::alloc::Global;
use stp_base::{List, Memory};
use stp_condition::SymbolKind;
use stp_refusal::{Offence, note};
use stp_schema::{Declared, Fact, Objects, TimedLiteral};
use stp_text::Sexpr;

/// Adds a literal of an atom, if there is one.
fn add_literal<'a>(
    literals: &mut List<TimedLiteral<'a>>,
    adds: bool,
    atom: Option<Fact<'a>>,
) -> Result<(), Memory>
    ensures { OnOk result
        (map literal_of literals.new ≡ with_literal (map literal_of literals.old) adds (option_map atom_of_fact atom.entry)) }
{
    if let Some(atom) = atom {
        literals.push(TimedLiteral {
            adds,
            predicate: atom.predicate,
            args: atom.args,
        })?;
    }
    Ok(())
}

/// Reads a literal behind others.
fn read_literal<'a>(
    arena: &'a Bump,
    declared: &Declared<'_>,
    objects: &Objects<'_>,
    literals: &mut List<TimedLiteral<'a>>,
    tree: &'a Sexpr<'a>,
    first: &mut Option<Offence>,
) -> Result<(), Memory>
    ensures { OnOk result
        (IsRead first.old first.new (map literal_of literals.new)
        (literal_read (known declared.now objects.now.rows.now) (map literal_of literals.old) (view tree.now))) }
{
    let Some(literal) = literal_in(tree) else {
        return Ok(());
    };
    let kind = SymbolKind::Predicate;
    let atom = read_call(arena, kind, declared, objects, &literal.call, first)?;
    add_literal(literals, literal.adds, atom)?;
    Ok(())
}

/// Reads the literals of an event.
fn read_literals<'a>(
    alloc: Global,
    arena: &'a Bump,
    declared: &Declared<'_>,
    objects: &Objects<'_>,
    items: &'a [Sexpr<'a>],
    first: &mut Option<Offence>,
) -> Result<&'a [TimedLiteral<'a>], Memory>
    ensures { IfOk result
        (λ r. IsRead first.old first.new (map literal_of r.now)
        (literals_read (known declared.now objects.now.rows.now) [] (views items.now))) }
{
    let mut literals = List::new(alloc);
    for item in items {
        read_literal(arena, declared, objects, &mut literals, item, first)?;
    }
    let literals = arena.try_alloc_slice_copy(literals.as_slice())?;
    Ok(literals)
}

/// Reads what is written at a place, behind other items.
fn read_written<'a>(
    alloc: Global,
    arena: &'a Bump,
    declared: &Declared<'_>,
    objects: &Objects<'_>,
    at: u32,
    items: &mut List<TimedItem<'a>>,
    written: Telling<'a>,
    first: &mut Option<Offence>,
) -> Result<(), Memory>
    ensures { OnOk result
        (IsRead first.old first.new (timed_items_of items.new)
        (written_read (known declared.now objects.now.rows.now) at (timed_items_of items.old) (written_view written.entry))) }
{
    match written {
        Telling::Other => Ok(()),
        Telling::Wrong(code) => {
            note(first, at, code);
            Ok(())
        }
        Telling::Event(window, literals) => {
            let literals = read_literals(alloc, arena, declared, objects, literals, first)?;
            items.push(TimedItem {
                at,
                window,
                literals,
            })?;
            Ok(())
        }
    }
}

/// Reads an item of `:init` behind others.
fn read_item<'a>(
    alloc: Global,
    arena: &'a Bump,
    declared: &Declared<'_>,
    objects: &Objects<'_>,
    items: &mut List<TimedItem<'a>>,
    tree: &'a Sexpr<'a>,
    first: &mut Option<Offence>,
) -> Result<(), Memory>
    ensures { OnOk result
        (IsRead first.old first.new (timed_items_of items.new)
        (timed_item_read (known declared.now objects.now.rows.now) (timed_items_of items.old) (view tree.now))) }
{
    let at = tree.place();
    let event = written(tree);
    read_written(alloc, arena, declared, objects, at, items, event, first)?;
    Ok(())
}

/// The events that the items of `:init` tell, in the order of the text.
///
/// Each offence is noted: events that do not match, and predicates, objects and arguments of their literals as in facts.
pub fn read_timed<'a>(
    alloc: Global,
    arena: &'a Bump,
    declared: &Declared<'_>,
    objects: &Objects<'_>,
    items: &'a [Sexpr<'a>],
    first: &mut Option<Offence>,
) -> Result<List<TimedItem<'a>>, Memory>
    ensures { IfOk result
        (λ r. IsRead first.old first.new (timed_items_of r)
        (timed_read (known declared.now objects.now.rows.now) (views items.now))) }
{
    let mut out = List::new(alloc);
    for item in items {
        read_item(alloc, arena, declared, objects, &mut out, item, first)?;
    }
    Ok(out)
}
