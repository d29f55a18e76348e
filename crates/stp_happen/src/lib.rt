//! Runs of events at moments, when they execute, and their first fault.
#![tactic(auto)]

pub mod bounds;
pub mod boxes;
pub mod fault;
pub mod first;
pub mod laws;
mod moments;
pub mod one_fault;
pub mod owners;
pub mod owning;
mod pairs;
pub mod refine;
pub mod run;
pub mod run_at;
mod sooner;

pub use bounds::with_bounds;
pub use boxes::{BoxRun, BoxStep, BoxTimed};
pub use fault::Fault;
pub use first::first_fault;
pub use owners::{Inside, OwnedBox, Owner};
pub use owning::by_owners;
pub use run::{Entry, Run, Span};
