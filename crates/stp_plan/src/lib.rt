//! Plan texts: lines, steps with their names, numbers and brackets, and how plans are printed.
#![tactic(auto)]

pub mod atoms;
mod bytes;
pub mod fault;
pub mod laws;
pub mod line;
mod names;
pub mod numbers;
mod parts;
pub mod print;
pub mod read;
pub mod steps;

pub use atoms::Named;
pub use fault::PlanFault;
pub use line::{Line, lines};
pub use numbers::plain_number;
pub use print::print_plan;
pub use read::{named, read_plan};
pub use steps::{Bracket, Plan, Step};
