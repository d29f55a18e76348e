//! The reader of domains.
#![tactic(auto)]

pub mod body;
pub mod condition;
pub mod domain;
mod firsts;
pub mod laws;
mod placed;
pub mod schemas;

pub use condition::read_condition;
pub use domain::read_domain;
pub use stp_refusal::ReadFault;
