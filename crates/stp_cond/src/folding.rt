//! Formulas without what is known.

ghost use Rattle.std.specs.Prelude.{◌≡◌, Bool, true, length, map, IfOk};
ghost use Rattle.stp_cond.specs.Truth.{all_of, is_below};
ghost use Rattle.stp_cond.specs.Formulas.{view};
ghost use Rattle.stp_cond.specs.Folded.{known_of, is_always, is_never, folded, folded_not, folded_and, folded_or};

use crate::cond::{Cond, negate};
use crate::known::Three;
use bumpalo::Bump;
use std::alloc::Global;
use stp_base::Memory;

/// Whether a formula is the constant true.
fn is_true(cond: &Cond<'_>) -> bool
    ensures { result ≡ is_always (view cond.now) }
{
    matches!(cond, Cond::True)
}

/// Whether a formula is the constant false.
fn is_false(cond: &Cond<'_>) -> bool
    ensures { result ≡ is_never (view cond.now) }
{
    matches!(cond, Cond::False)
}

/// The negation of a folded formula.
pub fn fold_not<'a>(arena: &'a Bump, part: &Cond<'a>) -> Result<Cond<'a>, Memory>
    ensures { IfOk result (λ r. view r ≡ folded_not (view part.now)) }
{
    match part {
        Cond::True => Ok(Cond::False),
        Cond::False => Ok(Cond::True),
        _ => negate(arena, part),
    }
}

/// The conjunction of folded formulas.
pub fn fold_and<'a>(arena: &'a Bump, mut parts: Vec<Cond<'a>>) -> Result<Cond<'a>, Memory>
    ensures { IfOk result (λ r. view r ≡ folded_and (map view parts.entry.items)) }
{
    if parts.iter().any(is_false) {
        return Ok(Cond::False);
    }
    parts.retain(|part| !is_true(part));
    match parts.as_slice() {
        [] => Ok(Cond::True),
        [only] => Ok(*only),
        several => Ok(Cond::And(arena.try_alloc_slice_copy(several)?)),
    }
}

/// The disjunction of folded formulas.
pub fn fold_or<'a>(arena: &'a Bump, mut parts: Vec<Cond<'a>>) -> Result<Cond<'a>, Memory>
    ensures { IfOk result (λ r. view r ≡ folded_or (map view parts.entry.items)) }
{
    if parts.iter().any(is_true) {
        return Ok(Cond::True);
    }
    parts.retain(|part| !is_false(part));
    match parts.as_slice() {
        [] => Ok(Cond::False),
        [only] => Ok(*only),
        several => Ok(Cond::Or(arena.try_alloc_slice_copy(several)?)),
    }
}

/// Several formulas, each folded.
#[cycle(fold)]
fn fold_all<'a>(
    alloc: Global,
    arena: &'a Bump,
    parts: &[Cond<'a>],
    known: &[Three],
) -> Result<Vec<Cond<'a>>, Memory>
    requires { all_of (map (is_below (length known.now)) parts.now) ≡ true }
    ensures { IfOk result
        (λ r. map view r.items ≡ map (λ c. folded (known_of known.now) (view c)) parts.now) }
{
    let mut out = Vec::with_capacity(alloc, parts.len())?;
    for part in parts {
        out.push(fold(alloc, arena, part, known)?)?;
    }
    Ok(out)
}

/// What is left of a formula once some of its atoms are known. Each of its atoms has an answer.
///
/// An atom that is known becomes true or false. A conjunction is false where a member is false, and drops
/// its true members; a disjunction does the same with true and false exchanged. A member that is left
/// alone stands for the whole.
#[cycle(fold)]
pub fn fold<'a>(
    alloc: Global,
    arena: &'a Bump,
    cond: &Cond<'a>,
    known: &[Three],
) -> Result<Cond<'a>, Memory>
    requires { is_below (length known.now) cond.now ≡ true }
    ensures { IfOk result (λ r. view r ≡ folded (known_of known.now) (view cond.now)) }
{
    match cond {
        Cond::True => Ok(Cond::True),
        Cond::False => Ok(Cond::False),
        Cond::Atom(atom) => Ok(match known[atom.0 as usize] {
            Three::Yes => Cond::True,
            Three::No => Cond::False,
            Three::Unknown => Cond::Atom(*atom),
        }),
        Cond::Not(part) => fold_not(arena, &fold(alloc, arena, part, known)?),
        Cond::And(parts) => fold_and(arena, fold_all(alloc, arena, parts, known)?),
        Cond::Or(parts) => fold_or(arena, fold_all(alloc, arena, parts, known)?),
    }
}
