//! The rewritten problem of a task: its events with shadows, locks, openings and closings, and its over-all conditions,
//! expanded.
#![tactic(auto)]

mod acting;
mod counting;
pub mod end;
mod ending;
mod expansions;
pub mod fault;
mod first;
mod happenings;
mod locking;
mod making;
mod numbering;
pub mod problem;
mod rewriter;
pub mod rewriting;
mod shadows;
mod totals;

pub use fault::RewriteFault;
pub use problem::{Point, Rewritten, RewrittenAction};
pub use rewriting::rewrite;
