//! Worked rows.

use crate::asking::{Bound, ask, have_points};
use std::test::Fail;
use stp_network::Network;

const WEAK_BACK: Bound = Bound {
    from: 1,
    to: 2,
    bound: 0,
    strict: false,
};

const STRICT: Bound = Bound {
    from: 2,
    to: 1,
    bound: 0,
    strict: true,
};

const ONE_LATER: Bound = Bound {
    from: 2,
    to: 1,
    bound: -1,
    strict: false,
};

const FIVE_LATER: Bound = Bound {
    from: 2,
    to: 1,
    bound: -5,
    strict: false,
};

#[test]
fn one_point_a_unit_after_another(rt: HostRuntime) -> Result<(), Fail> {
    let mut network = Network::new(rt.alloc());
    have_points(&mut network, 3)?;
    assert!(rt; ask(&mut network, ONE_LATER)?);
    let times = network.earliest(rt.alloc())?;
    assert_eq!(rt; times.as_slice(), [0u128, 0, 4].as_slice());
    Ok(())
}

#[test]
fn strictly_after_and_back_again(rt: HostRuntime) -> Result<(), Fail> {
    let mut network = Network::new(rt.alloc());
    have_points(&mut network, 3)?;
    assert!(rt; ask(&mut network, STRICT)?);
    let times = network.earliest(rt.alloc())?;
    assert_eq!(rt; times.as_slice(), [0u128, 0, 1].as_slice());
    assert!(rt; !ask(&mut network, WEAK_BACK)?);

    let mark = network.mark();
    assert!(rt; ask(&mut network, FIVE_LATER)?);
    network.back_to(mark);
    let times = network.earliest(rt.alloc())?;
    assert_eq!(rt; times.as_slice(), [0u128, 0, 1].as_slice());
    Ok(())
}

/// That each of the points 1 to 1,500 comes at least a unit after the one before it.
fn chained(network: &mut Network) -> Result<bool, stp_base::Memory> {
    let mut all = true;
    for point in 1..1_500u32 {
        let later = Bound {
            from: point + 1,
            to: point,
            bound: -1,
            strict: false,
        };
        all = ask(network, later)? && all;
    }
    Ok(all)
}

/// Whether a constraint is taken a million times.
fn taken_a_million_times(network: &mut Network, bound: Bound) -> Result<bool, stp_base::Memory> {
    let mut all = true;
    for _ in 0..1_000_000u32 {
        all = ask(network, bound)? && all;
    }
    Ok(all)
}

#[test]
fn a_million_constraints_that_are_met(rt: HostRuntime) -> Result<(), Fail> {
    let mut network = Network::new(rt.alloc());
    network.reserve(1_500, 1_100_000)?;
    have_points(&mut network, 1_501)?;
    assert!(rt; chained(&mut network)?);
    let within = Bound {
        from: 1,
        to: 1_500,
        bound: 1_499,
        strict: false,
    };
    assert!(rt; taken_a_million_times(&mut network, within)?);
    let too_near = Bound {
        from: 1,
        to: 1_500,
        bound: 1_498,
        strict: false,
    };
    assert!(rt; !ask(&mut network, too_near)?);
    Ok(())
}
