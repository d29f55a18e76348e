//! Which atoms an event writes.

ghost use Rattle.std.specs.Prelude.{◌≡◌, ◌||◌};
ghost use Rattle.stp_cond.specs.Atoms.{has};
ghost use Rattle.stp_cond.specs.Events.{event_of};

use stp_base::AtomId;
use stp_cond::{Event, is_among};

/// Whether an event adds an atom.
pub fn adds(event: &Event<'_>, atom: AtomId) -> bool
    ensures { result ≡ has (event_of event.now).adds atom.0 }
{
    is_among(event.adds, atom)
}

/// Whether an event deletes an atom.
pub fn deletes(event: &Event<'_>, atom: AtomId) -> bool
    ensures { result ≡ has (event_of event.now).dels atom.0 }
{
    is_among(event.dels, atom)
}

/// Whether an event writes an atom.
pub fn sets(event: &Event<'_>, atom: AtomId) -> bool
    ensures { result ≡ (has (event_of event.now).adds atom.0 || has (event_of event.now).dels atom.0) }
{
    adds(event, atom) || deletes(event, atom)
}
