//! What is known of a truth value.

/// Whether something is true, where that may be unknown.
#[derive(Clone, Copy, Debug, PartialEq, Eq)]
pub enum Three {
    Yes,
    No,
    Unknown,
}
