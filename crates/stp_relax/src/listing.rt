//! The true atoms of a row.

ghost use Rattle.std.specs.Prelude.{◌≡◌, ℕ, IfOk};
ghost use Rattle.stp_cond.specs.Atoms.{has, set_of};
ghost use Rattle.stp_cond.specs.Truth.{state_of_row};
ghost use Rattle.stp_cond.specs.Views.{atoms_of};

use std::alloc::Global;
use stp_base::{AtomId, List, Memory, StateRow};

/// The true atoms of a row, ascending.
pub(crate) fn listed(alloc: Global, row: &StateRow) -> Result<List<AtomId>, Memory>
    ensures once { IfOk result (λ r. set_of (atoms_of r) ≡ atoms_of r) }
    ensures those { IfOk result (λ r. (a : ℕ) → has (atoms_of r) a ≡ state_of_row row.now a) }
{
    let mut found = List::new(alloc);
    for number in 0..row.len() {
        let atom = AtomId(number);
        if row.get(atom) {
            found.push(atom)?;
        }
    }
    Ok(found)
}
