//! What may be wrong with a text, and which of several offences is given.
#![tactic(auto)]

pub mod code;
pub mod laws;
pub mod offence;
pub mod phase;

pub use code::Code;
pub use offence::{Offence, note};
pub use phase::{ReadFault, end_phase};
