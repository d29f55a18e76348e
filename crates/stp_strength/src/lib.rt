//! When a box is strong: static facts about windows, exactly where every choice of durations executes.
#![tactic(auto)]

mod check;
pub mod laws;
pub mod pairs;
mod states;

pub use check::is_sound;
pub use pairs::{stay_apart, stay_calm};
