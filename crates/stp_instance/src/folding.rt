//! What is left of conditions once what is static is known.

ghost use Rattle.std.specs.Prelude.{◌≡◌, map, IfOk};
ghost use Rattle.stp_tables.specs.Atoms.{atom_with};
ghost use Rattle.stp_cond.specs.Formulas.{view};
ghost use Rattle.stp_instance.specs.Numbered.{constant, folded_ground, is_fluent, is_in, numbered_atom};
ghost use Rattle.stp_instance.specs.Views.{claim};

use crate::ground::Ground;
use crate::numbering::is_fluent;
use bumpalo::Bump;
use std::alloc::Global;
use stp_base::{Memory, ObjectId};
use stp_cond::{Cond, fold_and, fold_not, fold_or};
use stp_tables::AtomTable;

/// True or false.
fn constant<'a>(value: bool) -> Cond<'a>
    ensures { view result ≡ constant value }
{
    if value { Cond::True } else { Cond::False }
}

/// An atom: by its number where it is fluent, and otherwise whether it is among the facts.
fn fold_fact<'a>(
    table: &AtomTable,
    fluent: &[bool],
    facts: &AtomTable,
    predicate: u32,
    args: &[ObjectId],
) -> Cond<'a>
    ensures { view result ≡ numbered_atom (is_fluent fluent.now) (is_in facts.now) table.now (atom_with predicate args.now) }
{
    if !is_fluent(fluent, predicate) {
        return constant(facts.find(predicate, args).is_some());
    }
    match table.find(predicate, args) {
        Some(atom) => Cond::Atom(atom),
        None => Cond::False,
    }
}

/// Several conditions, each folded.
#[cycle(fold)]
fn fold_all<'a>(
    alloc: Global,
    arena: &'a Bump,
    table: &AtomTable,
    fluent: &[bool],
    facts: &AtomTable,
    grounds: &[Ground<'_>],
) -> Result<Vec<Cond<'a>>, Memory>
    ensures { IfOk result
        (λ r. map view r.items ≡ map (λ g. folded_ground (is_fluent fluent.now) (is_in facts.now) table.now (claim g)) grounds.now) }
{
    let mut out = Vec::with_capacity(alloc, grounds.len())?;
    for ground in grounds {
        out.push(fold_ground(alloc, arena, table, fluent, facts, ground)?)?;
    }
    Ok(out)
}

/// What is left of a condition. A fluent atom stands by its number, and is false where it has none; a static one is
/// true where it is among the facts, and an equality where its objects are one.
///
/// A conjunction is false where a member is false, and drops its true members; a disjunction does the same with true
/// and false exchanged. A member that is left alone stands for the whole.
#[cycle(fold)]
pub fn fold_ground<'a>(
    alloc: Global,
    arena: &'a Bump,
    table: &AtomTable,
    fluent: &[bool],
    facts: &AtomTable,
    ground: &Ground<'_>,
) -> Result<Cond<'a>, Memory>
    ensures { IfOk result
        (λ r. view r ≡ folded_ground (is_fluent fluent.now) (is_in facts.now) table.now (claim ground.now)) }
{
    match ground {
        Ground::Fact(predicate, args) => Ok(fold_fact(table, fluent, facts, *predicate, args)),
        Ground::Same(one, other) => Ok(constant(one.0 == other.0)),
        Ground::Opposite(inner) => {
            let inner = fold_ground(alloc, arena, table, fluent, facts, inner)?;
            let cond = fold_not(arena, &inner)?;
            Ok(cond)
        }
        Ground::Every(members) => {
            let parts = fold_all(alloc, arena, table, fluent, facts, members)?;
            let cond = fold_and(arena, parts)?;
            Ok(cond)
        }
        Ground::Any(members) => {
            let parts = fold_all(alloc, arena, table, fluent, facts, members)?;
            let cond = fold_or(arena, parts)?;
            Ok(cond)
        }
    }
}
