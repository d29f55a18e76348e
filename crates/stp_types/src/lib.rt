//! The forest of types: which types are ancestors of themselves, and which are below which.
#![tactic(auto)]

pub mod laws;
pub mod loops;
pub mod query;
pub mod row;
pub mod rows;

pub use loops::looped;
pub use query::is_below;
pub use row::Ancestry;
pub use rows::ancestries;
