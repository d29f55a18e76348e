//! Constraints as a network keeps them.

ghost use Rattle.std.specs.Prelude.{◌≡◌, ℕ, ◌≤◌, ◌<◌, ◌↔◌, IsTrue, length, slice_index};
ghost use Rattle.stp_network.specs.Demands.{lag, lead};
ghost use Rattle.stp_network.specs.Edges.{constraint_of, IsSmall, IsMetBy};

use crate::limits::{KEPT_GRID, LATEST_KEPT};

/// A constraint, and a link to the one before it that has the same second point.
#[derive(Clone, Copy)]
pub(crate) struct Edge {
    pub(crate) from: u32,
    pub(crate) to: u32,
    pub(crate) bound: i64,
    pub(crate) strict: bool,
    /// The number of that constraint, counted from 1, or 0.
    pub(crate) next: u32,
}

impl Edge {
    /// How many moments of a grid the first point has to come after the second.
    pub(crate) fn lag_on(&self, grid: u128) -> u128
        requires small { IsSmall self.now }
        requires grid { grid ≤ KEPT_GRID }
        ensures { result ≡ lag grid (constraint_of self.now) }
    {
        let strict = if self.strict { 1 } else { 0 };
        if self.bound < 0 {
            grid * (-self.bound) as u128 + strict
        } else {
            strict
        }
    }

    /// How many moments of a grid the second point may come after the first.
    pub(crate) fn lead_on(&self, grid: u128) -> u128
        requires small { IsSmall self.now }
        requires grid { grid ≤ KEPT_GRID }
        ensures { result ≡ lead grid (constraint_of self.now) }
    {
        if self.bound < 0 {
            0
        } else {
            grid * self.bound as u128
        }
    }

    /// Whether the kept times meet it.
    pub(crate) fn is_met(&self, times: &[u128]) -> bool
        requires small { IsSmall self.now }
        requires from { self.now.from < length times.now }
        requires to { self.now.to < length times.now }
        requires low { (p : ℕ) → slice_index times.now p ≤ LATEST_KEPT }
        ensures { IsTrue result ↔ IsMetBy (slice_index times.now) self.now }
    {
        times[self.to as usize] + self.lag_on(KEPT_GRID)
            <= times[self.from as usize] + self.lead_on(KEPT_GRID)
    }
}
