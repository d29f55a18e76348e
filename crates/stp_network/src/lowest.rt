//! The least times that meet all edges.

ghost use Rattle.std.specs.Prelude.{◌≡◌, ◌+◌, ◌≤◌, ◌<◌, ◌^◌, ℕ, false, length, slice_index, sum, All, IfOk};
ghost use Rattle.stp_network.specs.Edges.{IsSmall};
ghost use Rattle.stp_network.specs.Lowest.{SolvesEdges, IsBelowAll, IsMetOn, HasTimes, growth_of};

use crate::edge::Edge;
use crate::limits::KEPT_GRID;
use std::alloc::Global;
use stp_base::Memory;

/// Moves each point that an edge finds behind, in one pass over all edges, and says whether one
/// was.
fn pass(edges: &[Edge], grid: u128, row: &mut [u128]) -> bool
    requires grid { grid ≤ KEPT_GRID }
    requires from { All (λ e. e.from < length row.old) edges.now }
    requires to { All (λ e. e.to < length row.old) edges.now }
    requires small { All IsSmall edges.now }
    requires times { HasTimes grid edges.now (2 ^ 126) }
    requires below { IsBelowAll grid edges.now row.old }
    ensures below { IsBelowAll grid edges.now row.new }
    ensures met { result ≡ false → All (IsMetOn grid (slice_index row.new)) edges.now }
    ensures sum { sum row.old + growth_of result ≤ sum row.new }
{
    let mut moved = false;
    for edge in edges {
        let from = edge.from as usize;
        let asked = row[edge.to as usize] + edge.lag_on(grid);
        let lead = edge.lead_on(grid);
        if row[from] + lead < asked {
            row[from] = asked - lead;
            moved = true;
        }
    }
    moved
}

/// Moves all points from the origin to their least times.
pub(crate) fn raise_to_lowest(edges: &[Edge], grid: u128, row: &mut [u128])
    requires grid { grid ≤ KEPT_GRID }
    requires from { All (λ e. e.from < length row.old) edges.now }
    requires to { All (λ e. e.to < length row.old) edges.now }
    requires small { All IsSmall edges.now }
    requires times { HasTimes grid edges.now (2 ^ 126) }
    requires zero { (p : ℕ) → slice_index row.old p ≡ 0 }
    ensures solves { SolvesEdges grid edges.now (slice_index row.new) }
    ensures below { IsBelowAll grid edges.now row.new }
{
    while pass(edges, grid, row) {}
}

/// The least times of so many points.
pub(crate) fn lowest_row(
    alloc: Global,
    edges: &[Edge],
    points: usize,
    grid: u128,
) -> Result<Vec<u128>, Memory>
    requires grid { grid ≤ KEPT_GRID }
    requires from { All (λ e. e.from < points) edges.now }
    requires to { All (λ e. e.to < points) edges.now }
    requires small { All IsSmall edges.now }
    requires times { HasTimes grid edges.now (2 ^ 126) }
    ensures count { IfOk result (λ row. length row.items ≡ points) }
    ensures solves { IfOk result (λ row. SolvesEdges grid edges.now (slice_index row.items)) }
    ensures below { IfOk result (λ row. IsBelowAll grid edges.now row.items) }
{
    let mut row = vec![in alloc; 0u128; points]?;
    raise_to_lowest(edges, grid, &mut row);
    Ok(row)
}
