//! Which literals are possible in a task, and certificates that its goal cannot be reached.
#![tactic(auto)]

pub mod certifying;
pub mod judging;
pub mod laws;
mod listing;
mod literals;
mod progress;
pub mod reaching;
mod taking;
mod watching;

pub use certifying::is_certificate;
pub use judging::possible;
pub use reaching::reach;
