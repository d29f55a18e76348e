//! The least failure of a box: the first durations in dictionary order at which it fails.
#![tactic(auto)]

pub mod least;
mod place;
mod search;

pub use least::{least_by_owners, least_failure};
