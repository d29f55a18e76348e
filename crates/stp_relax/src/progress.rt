//! How far it is known which literals are possible.

ghost use Rattle.std.specs.Prelude.{MatchOption};
ghost use Rattle.stp_relax.specs.Taken.{IsIdle, IsPopped};

use stp_base::{AtomId, StateRow};

/// The atoms that may be true and those that are always true, as far as is known, and the atoms of which this has
/// changed since they were last noted.
#[derive(Drop)]
pub(crate) struct Progress {
    pub may: StateRow,
    pub always: StateRow,
    pub noted: Vec<AtomId>,
}

/// How far an action has been looked at: how many members of each of its conditions, from the first on, are known to be
/// possible where it is a conjunction, and whether what its events add and delete has been taken over.
#[derive(Clone, Copy)]
pub(crate) struct Seen {
    pub start: usize,
    pub over: usize,
    pub finish: usize,
    pub has_begun: bool,
    pub has_ended: bool,
}

/// An atom that is noted, if there is one, which is then noted no longer.
pub(crate) fn next(progress: &mut Progress) -> Option<AtomId>
    ensures { MatchOption result (IsIdle progress.old progress.new) (λ atom. IsPopped progress.old progress.new atom.0) }
{
    progress.noted.pop()
}
