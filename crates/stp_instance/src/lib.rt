//! Ground instances: terms under a binding, values and durations, conditions and effects expanded, numbered and folded.
#![tactic(auto)]

pub mod binding;
pub mod effects;
pub mod expanding;
pub mod expression;
pub mod folding;
pub mod ground;
pub mod laws;
pub mod members;
pub mod numbering;
pub mod odometer;
pub mod timing;
pub mod values;
pub mod wheel;

pub use binding::{object_under, objects_under};
pub use effects::{Written, number_written, written_numbers, written_under};
pub use expanding::expand;
pub use expression::value;
pub use folding::fold_ground;
pub use ground::Ground;
pub use members::Members;
pub use numbering::{is_fluent, number_atoms, reads_of};
pub use odometer::Odometer;
pub use stp_task::Duration;
pub use timing::duration;
pub use values::Values;
