//! A network that is asked with room for one more of each.

ghost use Rattle.std.specs.Prelude.{◌≡◌, ◌≤◌, ◌+◌, length, take, OnOk};

use stp_base::limits::{MAX_CONSTRAINTS, MAX_POINTS};
use stp_base::{Memory, PointId};
use stp_network::Network;

/// That a point is at most a bound after another, or less than that where it is strict.
#[derive(Clone, Copy)]
pub struct Bound {
    pub from: u32,
    pub to: u32,
    pub bound: i16,
    pub strict: bool,
}

/// Adds points until there are so many.
pub fn have_points(network: &mut Network, points: u32) -> Result<(), Memory> {
    for _ in 0..points {
        network.reserve(1, 0)?;
        let mark = network.mark();
        if mark.points < points && mark.points < MAX_POINTS {
            network.add_point();
        }
    }
    Ok(())
}

/// Whether the network takes a constraint; false too where it has no such points.
pub fn ask(network: &mut Network, bound: Bound) -> Result<bool, Memory>
    ensures points { network.new.points ≡ network.old.points }
    ensures longer { length network.old.constraints ≤ length network.new.constraints }
    ensures first { take (length network.old.constraints) network.new.constraints ≡ network.old.constraints }
{
    network.reserve(0, 1)?;
    let mark = network.mark();
    if bound.from >= mark.points || bound.to >= mark.points || mark.edges >= MAX_CONSTRAINTS {
        return Ok(false);
    }
    Ok(network.add(
        PointId(bound.from),
        PointId(bound.to),
        i128::from(bound.bound),
        bound.strict,
    ))
}
