//! The ends of uncertain actions.

use stp_base::{ActionId, AtomId};
use stp_cond::Event;
use stp_expand::Footprint;

/// The end of an uncertain action, the atom that says that the action is opened, and what the end writes.
#[derive(Clone, Copy)]
pub struct End<'a> {
    pub action: ActionId,
    pub event: Event<'a>,
    pub opened: AtomId,
    pub footprint: Footprint<'a>,
}
