//! Atoms over objects.

ghost use Rattle.std.specs.Prelude.{◌≡◌, option_map, map, slice_get, IfOk};
ghost use Rattle.stp_text.specs.Tree.{view, views};
ghost use Rattle.stp_refusal.specs.Read.{IsRead, Finds};
ghost use Rattle.stp_schema.specs.Rows.{shape_of, thing_of, parents_of};
ghost use Rattle.stp_schema.specs.Known.{known};
ghost use Rattle.stp_condition.specs.Scope.{with_value};
ghost use Rattle.stp_condition.specs.Atoms.{shapes_of, shape_at, shape_in};
ghost use Rattle.stp_condition.specs.Views.{found_shape};
ghost use Rattle.stp_tables.specs.Atoms.{numbers_of};
ghost use Rattle.stp_problem.specs.Calls.{call_of, is_symbol_key, object_at, object_in, object_of, objects_of, found_wrong, arg_wrong, args_wrong, applied_wrong, call_read};
ghost use Rattle.stp_problem.specs.Views.{call_view, found_object, atom_of_fact};

use bumpalo::Bump;
use bumpalo::collections::into_bump_slice;
use stp_base::{Memory, ObjectId};
use stp_condition::{Key, SymbolKind, key_of};
use stp_refusal::{Code, Offence, note};
use stp_schema::{Declared, Fact, ObjectRow, Objects, Symbol};
use stp_text::{Sexpr, has_list};

/// An atom as it is written: its place, its first word, and the words behind it.
#[derive(Clone, Copy)]
pub struct Call<'a> {
    pub at: u32,
    pub name: &'a [u8],
    pub args: &'a [Sexpr<'a>],
}

/// Whether a word of this key may begin an atom.
fn is_symbol_key(key: Key) -> bool
    ensures { result ≡ is_symbol_key key }
{
    match key {
        Key::Symbol => true,
        _ => false,
    }
}

/// An atom as it is written, where a list is one: words, the first of which may begin an atom.
pub fn call_of<'a>(tree: &'a Sexpr<'a>) -> Option<Call<'a>>
    ensures { call_of (view tree.now) ≡ option_map call_view result }
{
    let (name, args) = tree.keyed()?;
    if !is_symbol_key(key_of(name)) || has_list(args) {
        return None;
    }
    Some(Call {
        at: tree.place(),
        name,
        args,
    })
}

/// The row of a number, if there is one.
fn row_at<T: Copy>(rows: &[T], number: u32) -> Option<T>
    ensures { result ≡ slice_get rows.now number }
{
    rows.get(number as usize).copied()
}

/// The symbol of a number, if there is one, with that number.
fn symbol_at<'d>(symbols: &[Symbol<'d>], number: Option<u32>) -> Option<(u32, Symbol<'d>)>
    ensures { option_map found_shape result ≡ with_value (shape_at (map shape_of symbols.now)) number }
{
    let number = number?;
    let symbol = row_at(symbols, number)?;
    Some((number, symbol))
}

/// The predicate or the function of a name, with its number.
fn find_symbol<'d>(
    kind: SymbolKind,
    declared: &Declared<'d>,
    name: &[u8],
) -> Option<(u32, Symbol<'d>)>
    ensures { option_map found_shape result
        ≡ shape_in (shapes_of kind (map shape_of declared.now.predicates.now) (map shape_of declared.now.functions.now)) name.now }
{
    match kind {
        SymbolKind::Predicate => symbol_at(declared.predicates, declared.find_predicate(name)),
        SymbolKind::Function => symbol_at(declared.functions, declared.find_function(name)),
    }
}

/// The object of a number, if there is one, with that number.
fn object_at<'d>(rows: &[ObjectRow<'d>], number: Option<u32>) -> Option<(u32, ObjectRow<'d>)>
    ensures { option_map found_object result ≡ with_value (object_at (map thing_of rows.now)) number }
{
    let number = number?;
    let row = row_at(rows, number)?;
    Some((number, row))
}

/// The object of a name, with its number.
fn find_object<'d>(objects: &Objects<'d>, name: &[u8]) -> Option<(u32, ObjectRow<'d>)>
    ensures { option_map found_object result ≡ object_in (map thing_of objects.now.rows.now) name.now }
{
    object_at(objects.rows, objects.find(name))
}

/// Looks at a word where an object of this type is wanted, in an atom at a place.
fn judge_found(
    declared: &Declared<'_>,
    at: u32,
    kind: u32,
    word_at: u32,
    found: Option<(u32, ObjectRow<'_>)>,
    first: &mut Option<Offence>,
)
    ensures { Finds first.old first.new
        (found_wrong (parents_of declared.now.types.now) at kind word_at (option_map found_object found.entry)) }
{
    match found {
        Some((_, row)) => {
            if !declared.is_below(row.kind, kind) {
                note(first, at, Code::P10);
            }
        }
        None => note(first, word_at, Code::P09),
    }
}

/// Looks at an argument where an object of this type is wanted, in an atom at a place.
fn judge_arg(
    declared: &Declared<'_>,
    objects: &Objects<'_>,
    at: u32,
    kind: u32,
    tree: &Sexpr<'_>,
    first: &mut Option<Offence>,
)
    ensures { Finds first.old first.new
        (arg_wrong (known declared.now objects.now.rows.now) at kind (view tree.now)) }
{
    match tree {
        Sexpr::Word { at: word_at, text } => {
            let found = find_object(objects, text);
            judge_found(declared, at, kind, *word_at, found, first);
        }
        Sexpr::Items { .. } => {}
    }
}

/// Looks at the arguments of an atom at a place, for parameters of these types.
fn judge_args(
    declared: &Declared<'_>,
    objects: &Objects<'_>,
    at: u32,
    kinds: &[u32],
    items: &[Sexpr<'_>],
    first: &mut Option<Offence>,
)
    ensures { Finds first.old first.new
        (args_wrong (known declared.now objects.now.rows.now) at kinds.now (views items.now)) }
{
    let mut rest = items;
    for kind in kinds {
        let [item, tail @ ..] = rest else {
            return;
        };
        judge_arg(declared, objects, at, *kind, item, first);
        rest = tail;
    }
}

/// Looks at an atom of a symbol with parameters of these types.
fn judge_applied(
    declared: &Declared<'_>,
    objects: &Objects<'_>,
    call: &Call<'_>,
    symbol: &Symbol<'_>,
    first: &mut Option<Offence>,
)
    ensures { Finds first.old first.new
        (applied_wrong (known declared.now objects.now.rows.now) (call_view call.now) (shape_of symbol.now)) }
{
    if call.args.len() != symbol.parameters.len() {
        note(first, call.at, Code::P10);
        return;
    }
    judge_args(
        declared,
        objects,
        call.at,
        symbol.parameters,
        call.args,
        first,
    );
}

/// The object of a word.
fn object_of(objects: &Objects<'_>, tree: &Sexpr<'_>) -> Option<u32>
    ensures { result ≡ object_of (map thing_of objects.now.rows.now) (view tree.now) }
{
    match tree {
        Sexpr::Word { text, .. } => {
            let (number, _) = find_object(objects, text)?;
            Some(number)
        }
        Sexpr::Items { .. } => None,
    }
}

/// The objects of words, if each is an object.
fn objects_of<'a>(
    arena: &'a Bump,
    objects: &Objects<'_>,
    items: &[Sexpr<'_>],
) -> Result<Option<&'a [ObjectId]>, Memory>
    ensures { IfOk result
        (λ r. option_map (λ args. numbers_of args.now) r ≡ objects_of (map thing_of objects.now.rows.now) (views items.now)) }
{
    let mut args = Vec::new(arena);
    for item in items {
        let Some(number) = object_of(objects, item) else {
            return Ok(None);
        };
        args.push(ObjectId(number))?;
    }
    Ok(Some(into_bump_slice(args)))
}

/// What an atom over objects says, where its symbol and its objects are declared. Notes what is wrong with it:
/// a symbol or an object that is not declared, a wrong number of arguments, an argument of a type that does not fit.
pub fn read_call<'a>(
    arena: &'a Bump,
    kind: SymbolKind,
    declared: &Declared<'_>,
    objects: &Objects<'_>,
    call: &Call<'_>,
    first: &mut Option<Offence>,
) -> Result<Option<Fact<'a>>, Memory>
    ensures { IfOk result
        (λ r. IsRead first.old first.new (option_map atom_of_fact r)
        (call_read kind (known declared.now objects.now.rows.now) (call_view call.now))) }
{
    let Some((symbol, row)) = find_symbol(kind, declared, call.name) else {
        note(first, call.at, Code::P09);
        return Ok(None);
    };
    judge_applied(declared, objects, call, &row, first);
    let Some(args) = objects_of(arena, objects, call.args)? else {
        return Ok(None);
    };
    Ok(Some(Fact {
        predicate: symbol,
        args,
    }))
}
