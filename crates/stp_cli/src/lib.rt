//! The top call: what the program does for a list of words.
#![tactic(auto)]

mod case;
mod demo;
mod judge;
pub mod laws;
mod loading;
mod numbers;
mod plan;
mod refusal;
mod replay;
mod reply;
mod status;
mod steady;
mod texts;
mod top;
mod verdict;
mod words;

pub use status::Status;
pub use steady::run_steadily;
pub use top::run;
