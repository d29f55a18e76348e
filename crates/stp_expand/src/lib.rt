//! The expansion of over-all conditions over the ends of uncertain actions that may have come or not.
#![tactic(auto)]

pub mod expanding;
pub mod fault;
pub mod footprint;
mod formulas;
pub mod laws;
mod merging;
mod sets;

pub use expanding::expand;
pub use fault::ExpandFault;
pub use footprint::Footprint;
pub use merging::footprints_on;
pub use sets::{is_consistent, picked, sets_of};
