//! Terms.

ghost use Rattle.std.specs.Prelude.{◌≡◌, map, IfOk};
ghost use Rattle.stp_text.specs.Tree.{view, views};
ghost use Rattle.stp_refusal.specs.Read.{IsRead, bad};
ghost use Rattle.stp_schema.specs.Rows.{thing_of, parents_of};
ghost use Rattle.stp_schema.specs.Known.{known};
ghost use Rattle.stp_condition.specs.Terms.{object_in, find_term, fits, found_term, no_term, term_read, terms_read};

use crate::row::row_at;
use crate::scope::Scope;
use bumpalo::Bump;
use bumpalo::collections::into_bump_slice;
use stp_base::{Memory, ObjectId};
use stp_refusal::{Code, Offence, note};
use stp_schema::{Declared, Objects, Term};
use stp_text::Sexpr;

/// The object of a name, with its type.
fn find_object(objects: &Objects<'_>, name: &[u8]) -> Option<(Term, u32)>
    ensures { result ≡ object_in (map thing_of objects.now.rows.now) name.now }
{
    let number = objects.find(name)?;
    let row = row_at(objects.rows, number)?;
    Some((Term::Object(ObjectId(number)), row.kind))
}

/// What a word stands for, with its type: a variable in scope, or else an object.
fn find_term(objects: &Objects<'_>, scope: &Scope<'_>, name: &[u8]) -> Option<(Term, u32)>
    ensures { result ≡ find_term (map thing_of objects.now.rows.now) scope.now name.now }
{
    match scope.find(name) {
        Some((number, kind)) => Some((Term::Variable(number), kind)),
        None => find_object(objects, name),
    }
}

/// Whether a type is that of a place or below it.
fn fits(declared: &Declared<'_>, place: Option<u32>, kind: u32) -> bool
    ensures { result ≡ fits (parents_of declared.now.types.now) place kind }
{
    match place {
        Some(other) => declared.is_below(kind, other),
        None => true,
    }
}

/// Notes an offence of a term, and gives what stands in its place.
fn refused(at: u32, code: Code, first: &mut Option<Offence>) -> Term
    ensures { IsRead first.old first.new result (bad at code no_term) }
{
    note(first, at, code);
    Term::Variable(0)
}

/// What a word stands for where a term of this type is wanted.
fn read_word(
    declared: &Declared<'_>,
    place: Option<u32>,
    at: u32,
    found: Option<(Term, u32)>,
    first: &mut Option<Offence>,
) -> Term
    ensures { IsRead first.old first.new result (found_term (parents_of declared.now.types.now) place at found) }
{
    let Some((term, kind)) = found else {
        return refused(at, Code::D19, first);
    };
    if !fits(declared, place, kind) {
        note(first, at, Code::D20);
    }
    term
}

/// What a tree says as a term where a term of this type, or of any type, is wanted. A list is D16, a word that
/// is neither a variable in scope nor an object D19, one of a type that is not wanted D20.
pub fn read_term(
    declared: &Declared<'_>,
    objects: &Objects<'_>,
    scope: &Scope<'_>,
    place: Option<u32>,
    tree: &Sexpr<'_>,
    first: &mut Option<Offence>,
) -> Term
    ensures { IsRead first.old first.new result
        (term_read (known declared.now objects.now.rows.now) scope.now place (view tree.now)) }
{
    match tree {
        Sexpr::Word { at, text } => {
            let found = find_term(objects, scope, text);
            read_word(declared, place, *at, found, first)
        }
        Sexpr::Items { at, .. } => refused(*at, Code::D16, first),
    }
}

/// Terms for places of these types. Items beyond the places are not judged.
pub fn read_terms<'a>(
    arena: &'a Bump,
    declared: &Declared<'_>,
    objects: &Objects<'_>,
    scope: &Scope<'_>,
    places: &[u32],
    items: &[Sexpr<'_>],
    first: &mut Option<Offence>,
) -> Result<&'a [Term], Memory>
    ensures { IfOk result
        (λ r. IsRead first.old first.new r.now
        (terms_read (known declared.now objects.now.rows.now) scope.now places.now (views items.now))) }
{
    let mut out = Vec::new(arena);
    let mut rest = items;
    for place in places {
        let [item, tail @ ..] = rest else {
            return Ok(into_bump_slice(out));
        };
        out.push(read_term(declared, objects, scope, Some(*place), item, first))?;
        rest = tail;
    }
    Ok(into_bump_slice(out))
}
