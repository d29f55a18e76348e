//! Conditions over ground atoms.

ghost use Rattle.std.specs.Prelude.{◌≡◌, ℕ, Bool, true, length, IfOk};
ghost use Rattle.std.specs.List.{list_all};
ghost use Rattle.stp_cond.specs.Truth.{truth, state_of_row, is_below, meaning_of, reads_only};
ghost use Rattle.stp_cond.specs.Views.{atoms_of};
ghost use Rattle.stp_cond.specs.Formulas.{view, Negation};

use bumpalo::Bump;
use std::alloc::Global;
use stp_base::{AtomId, Memory, StateRow};

/// A formula over ground atoms, whose parts lie in an arena.
#[derive(Clone, Copy)]
pub enum Cond<'a> {
    True,
    False,
    Atom(AtomId),
    Not(&'a Cond<'a>),
    And(&'a [Cond<'a>]),
    Or(&'a [Cond<'a>]),
}

/// Whether a formula holds in a row of truth values, which has all its atoms.
pub fn holds(cond: &Cond<'_>, row: &StateRow) -> bool
    requires { is_below (length row.now) cond.now ≡ true }
    ensures { result ≡ truth (state_of_row row.now) cond.now }
{
    match cond {
        Cond::True => true,
        Cond::False => false,
        Cond::Atom(atom) => row.get(*atom),
        Cond::Not(part) => !holds(part, row),
        Cond::And(parts) => {
            for part in *parts {
                if !holds(part, row) {
                    return false;
                }
            }
            true
        }
        Cond::Or(parts) => {
            for part in *parts {
                if holds(part, row) {
                    return true;
                }
            }
            false
        }
    }
}

/// The conjunction of these atoms, in their order.
pub fn conjunction<'a>(
    alloc: Global,
    arena: &'a Bump,
    atoms: &[AtomId],
) -> Result<&'a Cond<'a>, Memory>
    ensures meaning { IfOk result
        (λ r. meaning_of r.now ≡ (λ s. list_all s (atoms_of atoms.now))) }
    ensures reads { IfOk result
        (λ r. (these : ℕ → Bool) → reads_only these r.now ≡ list_all these (atoms_of atoms.now)) }
{
    let mut parts = Vec::new(alloc);
    for atom in atoms {
        parts.push(Cond::Atom(*atom))?;
    }
    let slice = arena.try_alloc_slice_copy(&parts)?;
    let cond = arena.try_alloc(Cond::And(slice))?;
    Ok(cond)
}

/// The negation of a formula.
pub fn negate<'a>(arena: &'a Bump, cond: &Cond<'a>) -> Result<Cond<'a>, Memory>
    ensures { IfOk result (λ r. view r ≡ Negation (view cond.now)) }
{
    let part = arena.try_alloc(*cond)?;
    Ok(Cond::Not(part))
}
