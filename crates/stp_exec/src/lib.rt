//! Plans of a problem: what brackets say, the base grid, the moments of steps, lists of durations, and a plan's box with
//! the events of the environment.
#![tactic(auto)]

pub mod boxed_plan;
pub mod boxes;
mod events;
pub mod fault;
pub mod fit;
pub mod grid;
pub mod held;
mod keys;
pub mod late;
pub mod laws;
pub mod list;
pub mod moments;
mod numbering;
pub mod placed;
pub mod placing;
mod steps;
pub mod timed_step;
pub mod times;
mod timing;

pub use boxed_plan::BoxedPlan;
pub use boxes::{box_of, box_placed};
pub use fault::ExecFault;
pub use fit::{Fitted, fit_durations};
pub use grid::grid_of;
pub use held::{Held, hold};
pub use late::first_late;
pub use list::{ListFault, read_durations};
pub use moments::{Moments, moments_on};
pub use placed::Placed;
pub use placing::place;
pub use timed_step::TimedStep;
pub use times::Times;
