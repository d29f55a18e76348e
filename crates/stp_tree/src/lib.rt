//! A search over an abstract tree to a budget: best first, and then in order of depth.
#![tactic(auto)]

pub mod answer;
pub mod best;
pub mod breadth;
pub mod expanding;
pub mod searching;
pub mod space;

pub use answer::Answer;
pub use searching::search;
pub use space::{Child, Space};
