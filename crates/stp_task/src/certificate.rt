//! Certificates: atoms that may be true, and atoms that are always true.

ghost use Rattle.std.specs.Prelude.{◌≡◌};
ghost use Rattle.stp_cond.specs.Atoms.{set_of};
ghost use Rattle.stp_cond.specs.Views.{atoms_of};

use stp_base::{AtomId, List};

/// The atoms that may be true at some time, and those that are true at all times; each list ascends.
#[derive(Drop)]
pub struct Certificate {
    pub may: List<AtomId>,
    pub always: List<AtomId>,
    pub ghost may_once: { set_of (atoms_of may) ≡ atoms_of may },
    pub ghost always_once: { set_of (atoms_of always) ≡ atoms_of always },
}
