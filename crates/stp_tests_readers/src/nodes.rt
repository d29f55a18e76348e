//! Nodes of conditions, counted by hand.

use stp_problem::{expanded_nodes, is_too_large};
use stp_schema::{Lifted, LiftedAtom, Term};

/// So many objects of each type.
const SIZES: [u32; 6] = [9_999, 10_000, 3, 0, 1, 4_000_000_000];

const ATOM: Lifted<'static> = Lifted::Atom(LiftedAtom {
    symbol: 0,
    terms: &[],
});

const NONE: Lifted<'static> = Lifted::And(&[]);

const BOTH: Lifted<'static> = Lifted::And(&[ATOM, Lifted::Not(&ATOM)]);

const MOST: Lifted<'static> = Lifted::Every(&[0], &ATOM);

const THREE: Lifted<'static> = Lifted::Every(&[2], &Lifted::Every(&[2], &ATOM));

const CASES: [(Lifted<'static>, u32); 15] = [
    (ATOM, 1),
    (Lifted::Same(Term::Variable(0), Term::Variable(1)), 1),
    (NONE, 1),
    (BOTH, 4),
    (Lifted::Or(&[ATOM, BOTH, NONE]), 7),
    (MOST, 10_000),
    (Lifted::Any(&[1], &ATOM), 10_001),
    (Lifted::Not(&MOST), 10_001),
    (Lifted::Every(&[3], &BOTH), 1),
    (Lifted::Every(&[2, 4, 2], &BOTH), 37),
    (Lifted::Any(&[5, 5, 5], &ATOM), 10_001),
    (Lifted::Any(&[5, 5, 5, 3], &ATOM), 1),
    (Lifted::Any(&[6], &ATOM), 1),
    (THREE, 13),
    (
        Lifted::Any(&[5], &Lifted::Any(&[5], &Lifted::Any(&[5], &THREE))),
        10_001,
    ),
];

/// Whether a condition has so many nodes, and is too large where these are more than 10,000.
fn has_nodes(cond: &Lifted<'_>, nodes: u32) -> bool {
    expanded_nodes(&SIZES, cond) == nodes && is_too_large(&SIZES, cond) == (nodes == 10_001)
}

#[test]
fn nodes_are_counted(rt: HostRuntime) {
    for (cond, nodes) in CASES.iter() {
        assert!(rt; has_nodes(cond, *nodes), "{nodes}");
    }
}
