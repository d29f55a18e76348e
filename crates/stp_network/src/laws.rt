//! The law of the definitions by which the contracts speak of networks. Nothing here runs.

ghost use Rattle.stp_network.specs.Fractions.{OneGridDecides};

/// Constraints over some points can be met in fractions exactly where they can be met on the grid
/// that has a moment in a unit for each point, and on each finer grid.
pub fn one_grid_decides()
    ensures { OneGridDecides }
{}
