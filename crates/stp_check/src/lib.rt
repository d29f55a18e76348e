//! The strong checker: whether a box executes whatever durations are chosen, and else durations at which it fails.
#![tactic(auto)]

mod carrying;
pub mod choices;
mod finding;
mod late;
mod meetings;
mod over_all;
mod overlaps;
mod touching;
pub mod verdicts;

pub use choices::{Choice, durations};
pub use verdicts::{Verdict, strong, strong_by_owners};
