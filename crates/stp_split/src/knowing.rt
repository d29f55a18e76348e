//! What is known of atoms whichever ends have come.

ghost use Rattle.std.specs.Prelude.{◌≡◌, ℕ, ◌<◌, true, if◌then◌else◌, length, All, IfOk};
ghost use Rattle.stp_cond.specs.Atoms.{has};
ghost use Rattle.stp_cond.specs.Decided.{decided, three_of};
ghost use Rattle.stp_cond.specs.Events.{IsEventInRange};
ghost use Rattle.stp_cond.specs.Folded.{known_of};
ghost use Rattle.stp_cond.specs.Truth.{is_below, state_of_row};
ghost use Rattle.stp_cond.specs.Views.{atoms_of};
ghost use Rattle.stp_split.specs.Known.{IsKeptRow, IsKnownRow};
ghost use Rattle.stp_window.specs.Views.{points_of};

use std::alloc::Global;
use stp_base::{AtomId, Memory, StateRow};
use stp_cond::{Cond, Three, decide};
use stp_window::Window;

/// What is known of a truth value.
fn known_value(value: bool) -> Three
    ensures { result ≡ three_of value }
{
    if value { Three::Yes } else { Three::No }
}

/// The values of a row, all of which are known.
fn known_values(alloc: Global, row: &StateRow) -> Result<Vec<Three>, Memory>
    ensures len { IfOk result (λ r. length r.items ≡ length row.now) }
    ensures all { IfOk result (λ r. (a : ℕ) → a < length row.now → known_of r.items a ≡ three_of (state_of_row row.now a)) }
{
    let mut known = Vec::with_capacity(alloc, row.len() as usize)?;
    for atom in 0..row.len() {
        known.push(known_value(row.get(AtomId(atom))))?;
    }
    Ok(known)
}

/// Makes these atoms unknown.
fn forget(known: &mut Vec<Three>, atoms: &[AtomId])
    requires { All (λ a. a.0 < length known.old.items) atoms.now }
    ensures len { length known.new.items ≡ length known.old.items }
    ensures known { (a : ℕ) → known_of known.new.items a ≡ (if has (atoms_of atoms.now) a then Three.Unknown else known_of known.old.items a) }
{
    for atom in atoms {
        known[atom.0 as usize] = Three::Unknown;
    }
}

/// What is known of each atom where each of these ends may have come or not. The row has what is so before any comes.
pub fn known_row(alloc: Global, ends: &[Window<'_>], row: &StateRow) -> Result<Vec<Three>, Memory>
    requires { All (λ w. IsEventInRange (length row.now) w.event) ends.now }
    ensures len { IfOk result (λ r. length r.items ≡ length row.now) }
    ensures known { IfOk result (λ r. IsKnownRow r.items (points_of ends.now) (state_of_row row.now)) }
    ensures kept { IfOk result (λ r. IsKeptRow r.items (points_of ends.now) (length row.now) (state_of_row row.now)) }
{
    let mut known = known_values(alloc, row)?;
    for end in ends {
        forget(&mut known, end.event.adds);
        forget(&mut known, end.event.dels);
    }
    Ok(known)
}

/// Whether what is known of atoms decides that a formula holds.
pub fn is_known_to_hold(cond: &Cond<'_>, known: &[Three]) -> bool
    requires { is_below (length known.now) cond.now ≡ true }
    ensures holds { result ≡ true → decided (known_of known.now) cond.now ≡ Three.Yes }
    ensures told { decided (known_of known.now) cond.now ≡ Three.Yes → result ≡ true }
{
    matches!(decide(cond, known), Three::Yes)
}
