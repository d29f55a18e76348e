//! The first phase of reading: the sections of domains and problems, the keys of actions, and typed lists.
#![tactic(auto)]

pub mod action;
pub mod domain;
pub mod entry;
mod forms;
pub mod judged;
pub mod key;
pub mod laws;
pub mod problem;

pub use action::{ActionParts, TimingParts};
pub use domain::{DomainParts, domain_parts};
pub use entry::{Entry, read_entries};
pub use judged::{WordKind, is_spelled, judge_kinds, judge_names, judge_shapes, number_of_kind};
pub use problem::{ProblemParts, problem_parts};
