//! The body of an action: its effects, its duration and the expressions of its bounds.
#![tactic(auto)]

pub mod duration;
pub mod effect;
pub mod expression;
mod form;
mod gather;
pub mod join;
pub mod laws;
pub mod timed;

pub use duration::{Bounds, read_duration};
pub use effect::{Effects, read_effect};
pub use expression::read_expression;
pub use timed::{TimedEffects, read_timed_effect};
