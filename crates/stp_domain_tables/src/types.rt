//! Types: their names, their parents, and those that are ancestors of themselves.

ghost use Rattle.std.specs.Prelude.{◌≡◌, ◌<◌, ◌^◌, ℕ, List as Sequence, length, map, IfOk, OnOk};
ghost use Rattle.stp_text.specs.Tree.{view, views};
ghost use Rattle.stp_refusal.specs.Read.{Finds};
ghost use Rattle.stp_tables.specs.Names.{with_name};
ghost use Rattle.stp_domain_parts.specs.Entries.{plain, plains};
ghost use Rattle.stp_types.specs.Forest.{IsTable, IsForest};
ghost use Rattle.stp_types.specs.Loops.{MarksLoops};
ghost use Rattle.stp_domain_tables.specs.Types.{with_type, types_in, type_number, with_parent, parents_in, loop_wrong, loops_wrong, has_loop, forest_of};

use std::alloc::Global;
use stp_base::{List, Memory};
use stp_domain_parts::entry::is_dash;
use stp_domain_parts::{Entry, number_of_kind};
use stp_refusal::{Code, Offence, note};
use stp_tables::Names;
use stp_text::Sexpr;

/// Keeps the name of a type that is new.
fn add_type<'a>(words: &mut List<&'a [u8]>, names: &mut Names, word: &'a [u8]) -> Result<(), Memory>
    ensures names { OnOk result (names.new ≡ with_name names.old word.now) }
    ensures words { OnOk result (names.old ≡ map (λ w. w.now) words.old → names.new ≡ map (λ w. w.now) words.new) }
{
    if names.add(word)? {
        words.push(word)?;
    }
    Ok(())
}

/// Keeps the name of a type, where an item of `:types` is one that is new.
fn see_type<'a>(
    words: &mut List<&'a [u8]>,
    names: &mut Names,
    item: &Sexpr<'a>,
) -> Result<(), Memory>
    ensures names { OnOk result (names.new ≡ with_type names.old (view item.now)) }
    ensures words { OnOk result (names.old ≡ map (λ w. w.now) words.old → names.new ≡ map (λ w. w.now) words.new) }
{
    match item {
        Sexpr::Word { text, .. } => {
            if !is_dash(text) {
                add_type(words, names, text)?;
            }
        }
        Sexpr::Items { .. } => {}
    }
    Ok(())
}

/// The names of the types in order of first sight.
pub fn read_type_names<'a>(
    alloc: Global,
    items: &'a [Sexpr<'a>],
) -> Result<(List<&'a [u8]>, Names), Memory>
    ensures names { IfOk result (λ r. r.1 ≡ types_in (views items.now)) }
    ensures some { IfOk result (λ r. 0 < length r.1) }
    ensures words { IfOk result (λ r. r.1 ≡ map (λ w. w.now) r.0) }
{
    let mut words = List::new(alloc);
    let mut names = Names::new(alloc);
    add_type(&mut words, &mut names, b"object".as_slice())?;
    for item in items {
        see_type(&mut words, &mut names, item)?;
    }
    Ok((words, names))
}

/// The number of a type, 0 where it has none.
fn type_number(types: &Names, name: &[u8]) -> u32
    ensures { result ≡ type_number types.now name.now }
{
    match types.find(name) {
        Some(number) => number,
        None => 0,
    }
}

/// Keeps the parent of an entry; `object` keeps its own.
fn keep_parent(types: &Names, parents: &mut Vec<u32>, entry: &Entry<'_>)
    requires length { length parents.old.items ≡ length types.now }
    requires some { 0 < length types.now }
    ensures { parents.new.items ≡ with_parent types.now parents.old.items (plain entry.now) }
{
    let number = type_number(types, entry.name);
    if number != 0 {
        parents[number as usize] = number_of_kind(types, entry);
    }
}

/// The parents of the types.
pub fn read_parents(alloc: Global, types: &Names, entries: &[Entry<'_>]) -> Result<Vec<u32>, Memory>
    requires { 0 < length types.now }
    ensures parents { IfOk result (λ r. r.items ≡ parents_in types.now (plains entries.now)) }
    ensures table { IfOk result (λ r. IsTable r.items) }
    ensures length { IfOk result (λ r. length r.items ≡ length types.now) }
    ensures small { IfOk result (λ r. length r.items < 2 ^ 32) }
{
    let mut parents = vec![in alloc; 0u32; types.len() as usize]?;
    for entry in entries {
        keep_parent(types, &mut parents, entry);
    }
    Ok(parents)
}

/// Looks whether the type of an entry is an ancestor of itself.
fn judge_loop(types: &Names, looped: &[bool], entry: &Entry<'_>, first: &mut Option<Offence>)
    requires length { length looped.now ≡ length types.now }
    requires some { 0 < length types.now }
    ensures { (parents : Sequence ℕ) → MarksLoops parents looped.now → Finds first.old first.new (loop_wrong types.now parents (plain entry.now)) }
{
    let number = type_number(types, entry.name);
    if looped[number as usize] {
        note(first, entry.at, Code::D14);
    }
}

/// Looks for types that are ancestors of themselves.
pub fn judge_loops(
    types: &Names,
    looped: &[bool],
    entries: &[Entry<'_>],
    first: &mut Option<Offence>,
)
    requires length { length looped.now ≡ length types.now }
    requires some { 0 < length types.now }
    ensures { (parents : Sequence ℕ) → MarksLoops parents looped.now → Finds first.old first.new (loops_wrong types.now parents (plains entries.now)) }
{
    for entry in entries {
        judge_loop(types, looped, entry, first);
    }
}

/// Whether there is a type that is an ancestor of itself.
fn has_mark(looped: &[bool]) -> bool
    ensures { (parents : Sequence ℕ) → MarksLoops parents looped.now → result ≡ has_loop parents }
{
    for mark in looped {
        if *mark {
            return true;
        }
    }
    false
}

/// The parents, of which none leads back; where one does, all are `object`.
pub fn make_forest(alloc: Global, parents: Vec<u32>, looped: &[bool]) -> Result<Vec<u32>, Memory>
    requires marks { MarksLoops parents.items looped.now }
    requires table { IsTable parents.items }
    ensures parents { IfOk result (λ r. r.items ≡ forest_of parents.items) }
    ensures table { IfOk result (λ r. IsTable r.items) }
    ensures forest { IfOk result (λ r. IsForest r.items) }
    ensures length { IfOk result (λ r. length r.items ≡ length parents.items) }
{
    if has_mark(looped) {
        let flat = vec![in alloc; 0u32; parents.len()]?;
        return Ok(flat);
    }
    Ok(parents)
}
