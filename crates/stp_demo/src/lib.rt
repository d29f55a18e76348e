//! Texts to try the program on, of any size: rovers that drive from one place to places of their own.
#![tactic(auto)]

pub mod domain;
pub mod pieces;
pub mod plan;
pub mod problem;

pub use domain::demo_domain;
pub use plan::demo_plan;
pub use problem::demo_problem;
