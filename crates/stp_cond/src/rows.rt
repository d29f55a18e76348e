//! Rows of truth values that events change.

ghost use Rattle.std.specs.Prelude.{◌≡◌, ℕ, ◌<◌, if◌then◌else◌, length, All};
ghost use Rattle.stp_cond.specs.Atoms.{changed_by, has};
ghost use Rattle.stp_cond.specs.Events.{IsEventInRange, event_of};
ghost use Rattle.stp_cond.specs.Truth.{state_of_row};
ghost use Rattle.stp_cond.specs.Views.{atoms_of};

use crate::event::Event;
use stp_base::{AtomId, StateRow};

/// Makes all of these atoms true, or all of them false.
pub fn set_all(row: &mut StateRow, atoms: &[AtomId], value: bool)
    requires { All (λ a. a.0 < length row.old) atoms.now }
    ensures len { length row.new ≡ length row.old }
    ensures state { (a : ℕ) → state_of_row row.new a ≡ (if has (atoms_of atoms.now) a then value else state_of_row row.old a) }
{
    for atom in atoms {
        row.set(*atom, value);
    }
}

/// Makes what an event deletes false, and then what it adds true.
pub fn apply(row: &mut StateRow, event: &Event<'_>)
    requires { IsEventInRange (length row.old) event.now }
    ensures len { length row.new ≡ length row.old }
    ensures state { (a : ℕ) → state_of_row row.new a ≡ changed_by (event_of event.now) (state_of_row row.old) a }
{
    set_all(row, event.dels, false);
    set_all(row, event.adds, true);
}
