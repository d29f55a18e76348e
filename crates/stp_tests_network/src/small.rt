//! Networks of two points beside the origin and three constraints: all pairs of constraints that
//! there are, with a third. Each is answered as the plain definition answers over all small times.

ghost use Rattle.std.specs.Prelude.{◌≡◌, ◌≤◌, length, take};

use crate::asking::{Bound, ask, have_points};
use std::alloc::Global;
use std::test::Fail;
use stp_base::Memory;
use stp_network::Network;

/// Constraints over three points with bounds from -2 to 2, weak and strict.
const BOUNDS: u32 = 90;

/// The constraint of a number below that.
fn bound_of(code: u32) -> Bound {
    Bound {
        from: code % 3,
        to: code / 3 % 3,
        bound: (code / 9 % 5) as i16 - 2,
        strict: code / 45 % 2 == 1,
    }
}

/// When a point is, the origin at 0.
fn time_of(point: u32, one: i64, other: i64) -> i64 {
    match point {
        0 => 0,
        1 => one,
        _ => other,
    }
}

/// Whether times meet a constraint on a grid, by the definition.
fn is_met(bound: Bound, grid: i64, one: i64, other: i64) -> bool {
    let distance = time_of(bound.to, one, other).wrapping_sub(time_of(bound.from, one, other));
    let most = i64::from(bound.bound).wrapping_mul(grid);
    if bound.strict {
        distance < most
    } else {
        distance <= most
    }
}

/// The least times on a grid that meet all constraints, of those below 28, if there are some.
fn least(codes: [u32; 3], grid: i64) -> Option<(i64, i64)> {
    let mut found = None;
    for one in 0..28i64 {
        for other in 0..28i64 {
            if codes
                .iter()
                .all(|code| is_met(bound_of(*code), grid, one, other))
            {
                let (first, second) = found.unwrap_or((one, other));
                found = Some((first.min(one), second.min(other)));
            }
        }
    }
    found
}

/// Whether the network takes all constraints, with the least times then.
fn answered(
    alloc: Global,
    network: &mut Network,
    codes: [u32; 3],
) -> Result<Option<(i64, i64)>, Memory>
    ensures points { network.new.points ≡ network.old.points }
    ensures longer { length network.old.constraints ≤ length network.new.constraints }
    ensures first { take (length network.old.constraints) network.new.constraints ≡ network.old.constraints }
{
    for code in codes {
        if !ask(network, bound_of(code))? {
            return Ok(None);
        }
    }
    let times = network.earliest(alloc)?;
    match times.as_slice() {
        [0, one, other] if *one < 28 && *other < 28 => Ok(Some((*one as i64, *other as i64))),
        _ => Ok(Some((-1, -1))),
    }
}

/// Whether the network answers as the definition does, and is as before afterwards.
fn agrees(alloc: Global, network: &mut Network, codes: [u32; 3]) -> Result<bool, Memory> {
    let mark = network.mark();
    let found = answered(alloc, network, codes)?;
    network.back_to(mark);
    Ok(found == least(codes, 4) && network.mark() == mark)
}

/// Whether all networks with this constraint as the first are answered so.
fn all_agree(alloc: Global, network: &mut Network, first: u32) -> Result<bool, Memory> {
    let mut all = true;
    for second in 0..BOUNDS {
        let third = first.wrapping_mul(7).wrapping_add(second * 13) % BOUNDS;
        all = agrees(alloc, network, [first, second, third])? && all;
    }
    Ok(all)
}

#[test]
fn small_networks_are_answered_as_defined(rt: HostRuntime) -> Result<(), Fail> {
    let mut network = Network::new(rt.alloc());
    have_points(&mut network, 3)?;
    for first in 0..BOUNDS {
        assert!(rt; all_agree(rt.alloc(), &mut network, first)?, "{first}");
    }
    Ok(())
}
