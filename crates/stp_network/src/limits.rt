//! The grid of a network's kept times, and how late one may be.

/// Moments in a unit of time on the grid of the kept times: one more than there can be points.
pub(crate) const KEPT_GRID: u128 = 1_662;
/// The latest time that is kept from one call to the next.
pub(crate) const LATEST_KEPT: u128 = 0x1000_0000_0000_0000_0000_0000_0000_0000;
