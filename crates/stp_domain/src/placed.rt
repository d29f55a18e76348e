//! Conditions in which each object gets another number.

ghost use Rattle.std.specs.Prelude.{◌≡◌, map, IfOk};
ghost use Rattle.stp_schema.specs.Formula.{formula};
ghost use Rattle.stp_domain.specs.Placed.{placed_term, placed};

use bumpalo::Bump;
use bumpalo::collections::into_bump_slice;
use stp_base::{Memory, ObjectId};
use stp_schema::{Lifted, LiftedAtom, Term};

/// The same term with an object's place in place of its number.
fn placed_term(places: &[u32], term: Term) -> Term
    ensures { result ≡ placed_term places.now term }
{
    match term {
        Term::Variable(_) => term,
        Term::Object(object) => match places.get(object.0 as usize) {
            Some(place) => Term::Object(ObjectId(*place)),
            None => term,
        },
    }
}

/// The same of terms in order.
fn placed_terms<'a>(arena: &'a Bump, places: &[u32], terms: &[Term]) -> Result<&'a [Term], Memory>
    ensures { IfOk result (λ r. r.now ≡ map (placed_term places.now) terms.now) }
{
    let mut out = Vec::new(arena);
    for term in terms {
        out.push(placed_term(places, *term))?;
    }
    Ok(into_bump_slice(out))
}

/// The same of a condition that stands behind a reference.
#[cycle(placed)]
fn placed_inner<'a>(
    arena: &'a Bump,
    places: &[u32],
    condition: &Lifted<'a>,
) -> Result<&'a Lifted<'a>, Memory>
    ensures { IfOk result (λ r. formula r.now ≡ placed places.now (formula condition.now)) }
{
    let condition = placed(arena, places, condition)?;
    let condition = arena.try_alloc(condition)?;
    Ok(condition)
}

/// The same condition, in which each object has its place as its number.
#[cycle(placed)]
pub fn placed<'a>(
    arena: &'a Bump,
    places: &[u32],
    condition: &Lifted<'a>,
) -> Result<Lifted<'a>, Memory>
    ensures { IfOk result (λ r. formula r ≡ placed places.now (formula condition.now)) }
{
    match condition {
        Lifted::Atom(atom) => {
            let terms = placed_terms(arena, places, atom.terms)?;
            let symbol = atom.symbol;
            Ok(Lifted::Atom(LiftedAtom { symbol, terms }))
        }
        Lifted::Same(one, other) => {
            let one = placed_term(places, *one);
            let other = placed_term(places, *other);
            Ok(Lifted::Same(one, other))
        }
        Lifted::Not(inner) => {
            let inner = placed_inner(arena, places, inner)?;
            Ok(Lifted::Not(inner))
        }
        Lifted::And(members) => {
            let members = placed_all(arena, places, members)?;
            Ok(Lifted::And(members))
        }
        Lifted::Or(members) => {
            let members = placed_all(arena, places, members)?;
            Ok(Lifted::Or(members))
        }
        Lifted::Every(kinds, body) => {
            let body = placed_inner(arena, places, body)?;
            Ok(Lifted::Every(kinds, body))
        }
        Lifted::Any(kinds, body) => {
            let body = placed_inner(arena, places, body)?;
            Ok(Lifted::Any(kinds, body))
        }
    }
}

/// The same of conditions in order.
#[cycle(placed)]
fn placed_all<'a>(
    arena: &'a Bump,
    places: &[u32],
    members: &[Lifted<'a>],
) -> Result<&'a [Lifted<'a>], Memory>
    ensures { IfOk result (λ r. map formula r.now ≡ map (λ c. placed places.now (formula c)) members.now) }
{
    let mut out = Vec::new(arena);
    for member in members {
        out.push(placed(arena, places, member)?)?;
    }
    Ok(into_bump_slice(out))
}
