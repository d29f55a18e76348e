//! Formulas that may be true or false where only some literals are possible.

ghost use Rattle.std.specs.Prelude.{◌≡◌, map};
ghost use Rattle.stp_cond.specs.Formulas.{Atomic, formulas_of, view};
ghost use Rattle.stp_cond.specs.Truth.{state_of_row};
ghost use Rattle.stp_task.specs.Certificates.{may_be};
ghost use Rattle.stp_relax.specs.Literals.{members_may_be, pair_by};

use stp_base::{AtomId, StateRow};
use stp_cond::Cond;
use stp_cond::sets::is_among;
use stp_task::Certificate;

/// Where it stands which atoms may be true and which are always true: in lists, or in two rows.
#[derive(Clone, Copy)]
pub(crate) enum Literals<'a> {
    Listed(&'a Certificate),
    Rows(&'a StateRow, &'a StateRow),
}

/// Whether a row has a true atom of this number.
pub(crate) fn is_set(row: &StateRow, atom: AtomId) -> bool
    ensures { result ≡ state_of_row row.now atom.0 }
{
    atom.0 < row.len() && row.get(atom)
}

/// Whether an atom may have a value.
fn atom_may_be(literals: &Literals<'_>, atom: AtomId, value: bool) -> bool
    ensures { result ≡ may_be (pair_by literals.now) value (Atomic atom.0) }
{
    match literals {
        Literals::Listed(lists) => {
            if value {
                is_among(lists.may.as_slice(), atom)
            } else {
                !is_among(lists.always.as_slice(), atom)
            }
        }
        Literals::Rows(may, always) => {
            if value {
                is_set(may, atom)
            } else {
                !is_set(always, atom)
            }
        }
    }
}

/// Whether formulas may have a value: all of them, or one of them.
#[cycle(may_be)]
fn members_may_be(parts: &[Cond<'_>], literals: &Literals<'_>, value: bool, all: bool) -> bool
    ensures { result ≡ members_may_be (pair_by literals.now) value all (formulas_of (map view parts.now)) }
{
    for part in parts {
        if may_be(part, literals, value) != all {
            return !all;
        }
    }
    all
}

/// Whether a formula may have a value.
#[cycle(may_be)]
pub(crate) fn may_be(cond: &Cond<'_>, literals: &Literals<'_>, value: bool) -> bool
    ensures { result ≡ may_be (pair_by literals.now) value (view cond.now) }
{
    match cond {
        Cond::True => value,
        Cond::False => !value,
        Cond::Atom(atom) => atom_may_be(literals, *atom, value),
        Cond::Not(part) => may_be(part, literals, !value),
        Cond::And(parts) => members_may_be(parts, literals, value, value),
        Cond::Or(parts) => members_may_be(parts, literals, value, !value),
    }
}
