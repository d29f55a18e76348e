//! Formulas that hold whichever ends have come, judged by splitting: an end comes, or it does not.
#![tactic(auto)]

pub mod ends;
pub mod judging;
pub mod knowing;
pub mod laws;
mod turning;

pub use ends::without_step;
pub use judging::failing;
pub use knowing::{is_known_to_hold, known_row};
