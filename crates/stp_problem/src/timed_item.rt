//! What an item of `:init` tells of an event of the environment.

use crate::window::Window;
use stp_schema::TimedLiteral;

/// An item at a place, when its event comes, and its literals.
#[derive(Clone, Copy)]
pub struct TimedItem<'a> {
    pub at: u32,
    pub window: Window,
    pub literals: &'a [TimedLiteral<'a>],
}
