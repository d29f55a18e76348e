//! Which events interfere.

ghost use Rattle.std.specs.Prelude.{◌≡◌};
ghost use Rattle.stp_cond.specs.Atoms.{disturbs, interfere};
ghost use Rattle.stp_cond.specs.Events.{event_of};

use crate::event::Event;
use crate::sets::have_common;

/// Whether the one event reads what the other writes, or adds what the other deletes.
fn disturbs(one: &Event<'_>, other: &Event<'_>) -> bool
    ensures { result ≡ disturbs (event_of one.now) (event_of other.now) }
{
    have_common(one.reads, other.adds)
        || have_common(one.reads, other.dels)
        || have_common(one.adds, other.dels)
}

/// Whether two events must not happen at one moment: one reads what the other writes, or adds what the
/// other deletes.
pub fn interfere(one: &Event<'_>, other: &Event<'_>) -> bool
    ensures { result ≡ interfere (event_of one.now) (event_of other.now) }
{
    disturbs(one, other) || disturbs(other, one)
}
