//! The atoms of a formula.

ghost use Rattle.std.specs.Prelude.{◌≡◌, ◌++◌, true, OnOk, IfOk};
ghost use Rattle.stp_cond.specs.Atoms.{has, set_of};
ghost use Rattle.stp_cond.specs.Views.{atoms_of};
ghost use Rattle.stp_cond.specs.Truth.{reads_only};
ghost use Rattle.stp_cond.specs.Formulas.{view, atoms_in};

use crate::cond::Cond;
use std::alloc::Global;
use stp_base::{AtomId, List, Memory};

/// Puts the numbers of a formula's atoms at the end.
fn gather(cond: &Cond<'_>, numbers: &mut Vec<u32>) -> Result<(), Memory>
    ensures { OnOk result (numbers.new.items ≡ numbers.old.items ++ atoms_in (view cond.now)) }
{
    match cond {
        Cond::True | Cond::False => {}
        Cond::Atom(atom) => numbers.push(atom.0)?,
        Cond::Not(part) => gather(part, numbers)?,
        Cond::And(parts) | Cond::Or(parts) => {
            for part in *parts {
                gather(part, numbers)?;
            }
        }
    }
    Ok(())
}

/// The atoms of a formula, ascending, each once.
pub fn atoms(alloc: Global, cond: &Cond<'_>) -> Result<List<AtomId>, Memory>
    ensures atoms { IfOk result (λ r. atoms_of r ≡ set_of (atoms_in (view cond.now))) }
    ensures reads { IfOk result (λ r. reads_only (has (atoms_of r)) cond.now ≡ true) }
{
    let mut numbers = Vec::new(alloc);
    gather(cond, &mut numbers)?;
    numbers.sort()?;
    numbers.dedup();
    let mut found = List::new(alloc);
    for number in &numbers {
        found.push(AtomId(*number))?;
    }
    Ok(found)
}
