//! Ground actions and how long they last, planning tasks, and what a certificate is.
#![tactic(auto)]

pub mod action;
pub mod certificate;
pub mod duration;
pub mod point;
pub mod task;

pub use action::GroundAction;
pub use certificate::Certificate;
pub use duration::Duration;
pub use point::PointKind;
pub use stp_tables::AtomTable;
pub use task::{Task, TimedEvent};
