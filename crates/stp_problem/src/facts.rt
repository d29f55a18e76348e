//! What is true at first, and the values of functions.

ghost use Rattle.std.specs.Prelude.{◌≡◌, option_map, map, slice_get, IfOk, OnOk, Some};
ghost use Rattle.std.specs.Ordering.{is_eq};
ghost use Rattle.stp_text.specs.Tree.{view, views};
ghost use Rattle.stp_refusal.specs.declared.code.Code.TheVariants.{P11};
ghost use Rattle.stp_refusal.specs.Read.{IsRead, Finds, unless, offence_at};
ghost use Rattle.stp_frac.specs.Fractions.{value_of, order_of};
ghost use Rattle.stp_schema.specs.Known.{known};
ghost use Rattle.stp_schema.specs.Views.{given_of};
ghost use Rattle.stp_problem.specs.Facts.{State, nothing, with_fact, place_of, value_once, value_read, form_read, item_read, facts_read};
ghost use Rattle.stp_problem.specs.Views.{call_view, form_view, atom_of_fact, state_of, facts_of};

use crate::call::{Call, read_call};
use crate::item::{Item, form_of};
use bumpalo::Bump;
use std::alloc::Global;
use stp_base::{List, Memory};
use stp_condition::SymbolKind;
use stp_frac::Frac;
use stp_refusal::{Code, Offence, note};
use stp_schema::{Declared, Fact, Given, Objects};
use stp_tables::AtomTable;
use stp_text::Sexpr;

/// The facts in the order of the text, and the values of functions in the order of first sight.
#[derive(Clone, Copy)]
pub struct Facts<'a> {
    pub initial: &'a [Fact<'a>],
    pub values: &'a [Given<'a>],
}

/// What was read so far, with a table of the places at which functions have values.
#[derive(Drop)]
struct Found<'a> {
    initial: List<Fact<'a>>,
    values: List<Given<'a>>,
    places: AtomTable,
}

/// The value of a number, if there is one.
fn value_at<'a>(values: &[Given<'a>], number: u32) -> Option<Given<'a>>
    ensures { result ≡ slice_get values.now number }
{
    values.get(number as usize).copied()
}

/// Looks at a value at a place that has one.
fn judge_value(at: u32, found: Frac, value: Frac, first: &mut Option<Offence>)
    ensures { Finds first.old first.new (unless (is_eq (order_of (value_of found) (value_of value))) (offence_at at P11)) }
{
    if !found.compare(value).is_eq() {
        note(first, at, Code::P11);
    }
}

impl<'a> Found<'a> {
    /// Adds a fact, if there is one.
    fn add_fact(&mut self, fact: Option<Fact<'a>>) -> Result<(), Memory>
        ensures state { OnOk result
            (state_of self.new.initial self.new.values ≡ with_fact (state_of self.old.initial self.old.values) (option_map atom_of_fact fact.entry)) }
        ensures values { OnOk result (self.new.values ≡ self.old.values) }
        ensures places { OnOk result (self.new.places ≡ self.old.places) }
    {
        if let Some(fact) = fact {
            self.initial.push(fact)?;
        }
        Ok(())
    }

    /// Adds the value of a function at a place, where it has none. Another value than the one that it has is an offence
    /// of the item at this offset.
    fn add_value(
        &mut self,
        at: u32,
        place: Fact<'a>,
        value: Frac,
        first: &mut Option<Offence>,
    ) -> Result<(), Memory>
        requires { self.old.places ≡ map place_of (map given_of self.old.values) }
        ensures read { OnOk result
            (IsRead first.old first.new (state_of self.new.initial self.new.values)
            (value_read at (value_of value) (state_of self.old.initial self.old.values) (Some (atom_of_fact place.entry)))) }
        ensures places { OnOk result (self.new.places ≡ map place_of (map given_of self.new.values)) }
    {
        let number = self.places.number(place.predicate, place.args)?;
        let Some(found) = value_at(self.values.as_slice(), number.0) else {
            self.values.push(Given {
                function: place.predicate,
                args: place.args,
                value,
            })?;
            return Ok(());
        };
        judge_value(at, found.value, value, first);
        Ok(())
    }

    /// Adds the value of a function at a place, if there is one.
    fn read_value(
        &mut self,
        at: u32,
        place: Option<Fact<'a>>,
        value: Frac,
        first: &mut Option<Offence>,
    ) -> Result<(), Memory>
        requires { self.old.places ≡ map place_of (map given_of self.old.values) }
        ensures read { OnOk result
            (IsRead first.old first.new (state_of self.new.initial self.new.values)
            (value_read at (value_of value) (state_of self.old.initial self.old.values) (option_map atom_of_fact place.entry))) }
        ensures places { OnOk result (self.new.places ≡ map place_of (map given_of self.new.values)) }
    {
        if let Some(place) = place {
            self.add_value(at, place, value, first)?;
        }
        Ok(())
    }

    /// Reads an item of this form at a place.
    fn read_form(
        &mut self,
        arena: &'a Bump,
        declared: &Declared<'_>,
        objects: &Objects<'_>,
        at: u32,
        form: &Item<'_>,
        first: &mut Option<Offence>,
    ) -> Result<(), Memory>
        requires { self.old.places ≡ map place_of (map given_of self.old.values) }
        ensures read { OnOk result
            (IsRead first.old first.new (state_of self.new.initial self.new.values)
            (form_read (known declared.now objects.now.rows.now) at (state_of self.old.initial self.old.values) (form_view form.now))) }
        ensures places { OnOk result (self.new.places ≡ map place_of (map given_of self.new.values)) }
    {
        match form {
            Item::Holds(call) => {
                let fact = read_call(arena, SymbolKind::Predicate, declared, objects, call, first)?;
                self.add_fact(fact)?;
                Ok(())
            }
            Item::Denied(call) => {
                read_call(arena, SymbolKind::Predicate, declared, objects, call, first)?;
                Ok(())
            }
            Item::Value(call, value) => {
                let place = read_call(arena, SymbolKind::Function, declared, objects, call, first)?;
                self.read_value(at, place, *value, first)?;
                Ok(())
            }
            Item::Timed => Ok(()),
            Item::Malformed => {
                note(first, at, Code::P08);
                Ok(())
            }
        }
    }

    /// Reads an item.
    fn read_item(
        &mut self,
        arena: &'a Bump,
        declared: &Declared<'_>,
        objects: &Objects<'_>,
        tree: &'a Sexpr<'a>,
        first: &mut Option<Offence>,
    ) -> Result<(), Memory>
        requires { self.old.places ≡ map place_of (map given_of self.old.values) }
        ensures read { OnOk result
            (IsRead first.old first.new (state_of self.new.initial self.new.values)
            (item_read (known declared.now objects.now.rows.now) (state_of self.old.initial self.old.values) (view tree.now))) }
        ensures places { OnOk result (self.new.places ≡ map place_of (map given_of self.new.values)) }
    {
        let form = form_of(tree);
        self.read_form(arena, declared, objects, tree.place(), &form, first)?;
        Ok(())
    }
}

/// What the items of `:init` say: the facts in the order of the text, and each function's value once.
///
/// Each offence is noted: items that do not match, predicates, functions and objects that are not declared, wrong
/// arguments, and second values. Items that tell events are passed over.
pub fn read_facts<'a>(
    alloc: Global,
    arena: &'a Bump,
    declared: &Declared<'_>,
    objects: &Objects<'_>,
    items: &'a [Sexpr<'a>],
    first: &mut Option<Offence>,
) -> Result<Facts<'a>, Memory>
    ensures { IfOk result
        (λ r. IsRead first.old first.new (facts_of r)
        (facts_read (known declared.now objects.now.rows.now) (views items.now))) }
{
    let mut found = Found {
        initial: List::new(alloc),
        values: List::new(alloc),
        places: AtomTable::new(alloc),
    };
    for item in items {
        found.read_item(arena, declared, objects, item, first)?;
    }
    let initial = arena.try_alloc_slice_copy(found.initial.as_slice())?;
    let values = arena.try_alloc_slice_copy(found.values.as_slice())?;
    Ok(Facts { initial, values })
}
