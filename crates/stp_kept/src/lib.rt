//! The task of a problem: the instances of its schemas that are kept, with the numbers of their atoms.
#![tactic(auto)]

mod actions;
mod counting;
pub mod fault;
pub mod instance;
pub mod listing;
mod numbering;
pub mod settling;
pub mod tasks;
mod timing;

pub use fault::GroundFault;
pub use instance::Instance;
pub use tasks::ground_all;
