//! Worked rows: what is answered with each budget, by hand.

use crate::space::Table;
use crate::table::Row;
use std::alloc::Global;
use std::test::Fail;
use stp_base::Memory;
use stp_tree::{Answer, search};

/// A row from which these moves lead on.
const fn row(left: Option<u32>, right: Option<u32>, estimate: u32) -> Row {
    Row {
        left,
        right,
        valid: false,
        estimate,
    }
}

/// A valid row.
const GOAL: Row = Row {
    left: None,
    right: None,
    valid: true,
    estimate: 0,
};

/// How many moves lead to what was found; 100 where there is nothing, and 200 where the budget is spent.
fn answered(alloc: Global, rows: &[Row], merges: bool, budget: u32) -> Result<usize, Memory> {
    let table = Table {
        alloc,
        rows,
        merges,
        limit: 3,
    };
    match search(alloc, &table, budget)? {
        Answer::Valid(found) => Ok(found.moves.len()),
        Answer::Exhausted => Ok(100),
        Answer::Spent => Ok(200),
    }
}

#[test]
fn a_valid_root_needs_no_budget(rt: HostRuntime) -> Result<(), Fail> {
    assert_eq!(rt; answered(rt.alloc(), &[GOAL], false, 0)?, 0usize);
    assert_eq!(rt; answered(rt.alloc(), &[GOAL], false, 7)?, 0usize);
    assert_eq!(rt;
        answered(rt.alloc(), &[row(None, None, 0)], false, 0)?,
        200usize
    );
    assert_eq!(rt;
        answered(rt.alloc(), &[row(None, None, 0)], false, 1)?,
        100usize
    );
    Ok(())
}

#[test]
fn a_valid_node_two_moves_deep(rt: HostRuntime) -> Result<(), Fail> {
    let rows = [
        row(Some(1), Some(2), 0),
        row(Some(3), None, 0),
        row(None, None, 0),
        GOAL,
    ];
    for budget in 0..3u32 {
        assert_eq!(rt; answered(rt.alloc(), &rows, false, budget)?, 200usize);
    }
    for budget in 3..12u32 {
        assert_eq!(rt; answered(rt.alloc(), &rows, false, budget)?, 2usize);
    }
    Ok(())
}

#[test]
fn the_least_estimate_comes_first(rt: HostRuntime) -> Result<(), Fail> {
    let near = [
        row(Some(1), Some(2), 0),
        row(Some(1), Some(1), 9),
        row(Some(1), Some(3), 1),
        row(Some(1), Some(4), 1),
        GOAL,
    ];
    let far = [
        row(Some(1), Some(2), 0),
        row(Some(1), Some(1), 1),
        row(Some(1), Some(3), 9),
        row(Some(1), Some(4), 9),
        GOAL,
    ];
    assert_eq!(rt; answered(rt.alloc(), &near, false, 5)?, 200usize);
    assert_eq!(rt; answered(rt.alloc(), &near, false, 6)?, 3usize);
    assert_eq!(rt; answered(rt.alloc(), &far, false, 6)?, 200usize);
    Ok(())
}

#[test]
fn equal_states_are_met_once_and_the_limit_cuts(rt: HostRuntime) -> Result<(), Fail> {
    let rows = [row(Some(0), Some(1), 0), row(None, None, 0)];
    assert_eq!(rt; answered(rt.alloc(), &rows, true, 2)?, 200usize);
    assert_eq!(rt; answered(rt.alloc(), &rows, true, 3)?, 100usize);
    assert_eq!(rt; answered(rt.alloc(), &rows, false, 100)?, 200usize);
    Ok(())
}
