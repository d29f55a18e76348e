//! Tables in order of first sight: names and ground atoms with their numbers.
#![tactic(auto)]

pub mod atoms;
pub mod names;

pub use atoms::AtomTable;
pub use names::Names;
