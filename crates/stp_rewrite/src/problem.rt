//! Rewritten problems.

use stp_base::{AtomId, List, StateRow};
use stp_cond::{Cond, Event};
use stp_task::{Duration, PointKind, TimedEvent};

/// An event of a rewritten action, and what it is.
#[derive(Clone, Copy)]
pub struct Point<'a> {
    pub kind: PointKind,
    pub event: Event<'a>,
}

/// A rewritten action: how long it lasts, its events in their order, and what holds all through it.
#[derive(Clone, Copy)]
pub struct RewrittenAction<'a> {
    pub duration: Duration,
    pub points: &'a [Point<'a>],
    pub over: &'a Cond<'a>,
}

/// The rewritten problem of a task: how many atoms the task has, the shadow of each atom that has one, the atoms that say
/// that uncertain actions are opened, the first state, the actions, the events of the environment, the goal, and the grid.
#[derive(Drop)]
pub struct Rewritten<'a> {
    pub plain: u32,
    pub shadow_of: List<Option<AtomId>>,
    pub opened: List<Option<AtomId>>,
    pub initial: StateRow,
    pub actions: List<RewrittenAction<'a>>,
    pub timed: List<TimedEvent<'a>>,
    pub goal: &'a Cond<'a>,
    pub grid: u128,
}
