//! Boxes of owners: steps and events of the environment in one list.

ghost use Rattle.stp_happen.specs.SoundOwned.{IsOwnedBox};

use stp_base::{List, StateRow};
use stp_cond::{Cond, Event};

/// Which action a step is of, and what has to hold inside it.
#[derive(Clone, Copy)]
pub struct Inside<'a> {
    pub key: u32,
    pub over: &'a Cond<'a>,
}

/// A step, or an event of the environment.
///
/// An event of the environment starts at 0, and has no first event and nothing inside. At a fixed moment
/// its number is 0.
#[derive(Clone, Copy)]
pub struct Owner<'a> {
    pub number: u32,
    pub start: u128,
    pub low: u128,
    pub high: u128,
    pub uncertain: bool,
    pub first: Option<Event<'a>>,
    pub last: Option<Event<'a>>,
    pub inside: Option<Inside<'a>>,
}

/// The owners of all events on a grid, the initial state and the goal.
#[derive(Drop)]
pub struct OwnedBox<'a> {
    pub grid: u128,
    pub owners: List<Owner<'a>>,
    pub initial: StateRow,
    pub goal: &'a Cond<'a>,
    pub ghost sound: { ∥ IsOwnedBox grid owners initial goal.now ∥₁ },
}
