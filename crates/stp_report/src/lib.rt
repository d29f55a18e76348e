//! The answers of the program, and the texts that they are printed as.
#![tactic(auto)]

pub mod answer;
pub mod code;
pub mod demo;
pub mod fault;
pub mod laws;
pub mod no_plan;
pub mod pieces;
pub mod print;
pub mod replay;

pub use answer::{Answer, Failure, FileName, Summary};
pub use print::print_answer;
pub use stp_refusal::Code;
