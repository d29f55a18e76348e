//! What is kept of each type.

/// A type's parent, the number of steps to the root, and an ancestor to which one jumps.
#[derive(Clone, Copy, Debug, PartialEq, Eq)]
pub struct Ancestry {
    pub parent: u32,
    pub depth: u32,
    pub jump: u32,
}
